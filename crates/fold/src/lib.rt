// `normalize_periodic_cycle`: the list of a cycle, folded into one period.
// By test: the cycle is one that may be folded only behind the test of 5, which stands here.
#![tactic(auto)]

ghost use Rattle.std.specs.Prelude.{◌≡◌, [], OnErr};
ghost use Rattle.refusal.specs.Numbers.{result_of};
ghost use Rattle.fold.specs.Entry.{fold_entry};

use fold_events::GivenCycle;
use limits::{CYCLE_EVENTS, SAMPLES};
use linear_pk::LinearPk;
use protocol::{Event, EventList, Window};
use refusal::Refusal;

// The list of a cycle folded: 5, the kernel's own 1 and 2, then 15, 13, event by event 16, 17, 18, 13, at last 10, 11, 12. At a refusal the list
// is empty.
pub fn normalize_periodic_cycle(
    kernel: LinearPk,
    window: Window,
    events: &[Event],
    samples: &[f64],
    list: &mut EventList,
) -> Result<(), Refusal>
    ensures folded { result_of result list.new.items ≡ fold_entry kernel window samples.now events.now }
    ensures refused { OnErr result (list.new.items ≡ []) }
{
    list.clear();
    if events.len() > CYCLE_EVENTS {
        return Err(Refusal::Limit);
    }
    if samples.len() > SAMPLES {
        return Err(Refusal::Limit);
    }
    let given = GivenCycle {
        window,
        samples,
        events,
    };
    linear_pk::check(kernel)?;
    fold_events::folded(kernel.state_count(), &given, list)
}
