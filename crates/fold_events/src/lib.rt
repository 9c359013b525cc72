// Lists folded: 15, 13, then event by event 16, 17, 18, 13, at last 10, 11, 12.
// By count: n is how many states a kernel has, beside which no array stands.
#![tactic(auto)]

ghost use Rattle.std.specs.Prelude.{◌≡◌, [], OnErr};
ghost use Rattle.refusal.specs.Numbers.{result_of};
ghost use Rattle.cycle.specs.Fold.{cycle_passes, with_events, fold};

mod given;

use fold_event::Cycle;
pub use given::GivenCycle;
use protocol::{EventList, Window};
use refusal::Refusal;

// The ends and the period finite, and the period above 0.
#[tactic(auto, unfolding(cycle::specs::Fold::cycle_passes))]
fn cycle_passes(window: Window) -> bool
    ensures { result ≡ cycle_passes window }
{
    binary64::is_finite(window.start)
        & (binary64::is_finite(window.end) & binary64::is_positive(window.end - window.start))
}

// The events one by one, in a list of their own.
fn with_events(given: &GivenCycle, list: &mut EventList) -> Result<(), Refusal>
    ensures { result_of result list.new.items ≡ with_events given.now.window given.now.events.now given.now.events.now [] }
{
    list.clear();
    let cycle = Cycle {
        window: given.window,
        events: given.events,
    };
    for event in given.events {
        cycle.with_event(event, list)?;
    }
    Ok(())
}

// The fold, and the tests of its list for n states.
fn fold_and_validate(n: usize, given: &GivenCycle, list: &mut EventList) -> Result<(), Refusal>
    ensures { result_of result list.new.items ≡ fold n given.now.window given.now.samples.now given.now.events.now }
{
    if !cycle_passes(given.window) {
        return Err(Refusal::Period);
    }
    if given.events.len() > given.window.events {
        return Err(Refusal::EventBudget);
    }
    with_events(given, list)?;
    preparation_validation::validate(n, given.window, given.samples, list)
}

// The reply, and its list: an empty one at a refusal.
pub fn empty_at_refusal(reply: Result<(), Refusal>, list: &mut EventList) -> Result<(), Refusal>
    ensures reply { result ≡ reply }
    ensures list { result_of result list.new.items ≡ result_of reply list.old.items }
    ensures refused { OnErr result (list.new.items ≡ []) }
{
    if reply.is_err() {
        list.clear();
    }
    reply
}

// The list for n states, folded; an empty one at a refusal.
pub fn folded(n: usize, given: &GivenCycle, list: &mut EventList) -> Result<(), Refusal>
    ensures folded { result_of result list.new.items ≡ fold n given.now.window given.now.samples.now given.now.events.now }
    ensures refused { OnErr result (list.new.items ≡ []) }
{
    let reply = fold_and_validate(n, given, list);
    empty_at_refusal(reply, list)
}
