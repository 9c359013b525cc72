// The folded cycle over words, six to an event, for the C interface.
// By the C interface: C gives these one by one, and they part at once, as words become events; a struct would live for that call.
#![tactic(auto)]

ghost use Rattle.std.specs.Prelude.{◌≡◌, ◌≤◌, ◌*◌, length};
ghost use Rattle.limits.specs.Limits.{event_size};
ghost use Rattle.refusal.specs.Numbers.{outcome_of};
ghost use Rattle.printout.specs.Cells.{Wrote};
ghost use Rattle.events_words.specs.Words.{list_words};
ghost use Rattle.capi_fold.specs.Words.{fold_words, count_of, cells_of};

use limits::EVENT_SIZE;
use linear_pk::LinearPk;
use protocol::{Event, EventList, Window};
use refusal::Refusal;

// The words of the events, from the front on.
fn put_list(list: &[Event], out: &mut [u64]) -> usize
    requires { event_size * length list.now ≤ length out.old }
    ensures { Wrote (list_words list.now) 0 out.old result out.new }
{
    let mut at = 0;
    for event in list {
        at = events_words::put_event(out, at, *event);
    }
    at
}

// The list of a cycle, from words to words, and how many events it has: 40, then the library's numbers, last 4.
#[tactic(auto, using(crate::proofs::Listings::read_in), unfolding(crate::specs::Words::fold_words, crate::specs::Words::cells_of))]
pub fn fold_words(
    kernel: LinearPk,
    window: Window,
    events: &[u64],
    samples: &[f64],
    folded: &mut [u64],
) -> Result<usize, Refusal>
    ensures count_value { outcome_of result ≡ count_of (fold_words kernel window events.now samples.now (length folded.old)) }
    ensures folded_after { folded.new ≡ cells_of (fold_words kernel window events.now samples.now
        (length folded.old)) folded.old }
{
    if !events_layout::events_fit(events) {
        return Err(Refusal::Layout);
    }
    let given = events_layout::events_of(events);
    let mut list = EventList::new();
    fold::normalize_periodic_cycle(kernel, window, given.as_slice(), samples, &mut list)?;
    let count = list.len();
    if EVENT_SIZE * count > folded.len() {
        return Err(Refusal::ShortSlice);
    }
    put_list(list.as_slice(), folded);
    Ok(count)
}
