// The tests ahead of a run, behind those of the kernel and the amounts.
// By length: of the lent slices the lengths alone are read, and no type keeps that a slice of samples is within the limit.
// By the tests: a fold tests other events under the same window, and a closed cycle runs without samples on another window.
ghost use Rattle.std.specs.Prelude.{◌≡◌, [], ◌∷◌, ◌≤◌, length};
ghost use Rattle.limits.specs.Limits.{states, most_events, most_samples};
ghost use Rattle.refusal.specs.Numbers.{reply_number};
ghost use Rattle.protocol.specs.First.{unless, first_of};
ghost use Rattle.protocol.specs.Prepare.{reckoned, prepare as prepareOf};
ghost use Rattle.protocol.specs.Entry.{room_for};
ghost use Rattle.preparation.specs.Preparation.{option_number};
ghost use Rattle.simulation_report.specs.Replies.{room};

use protocol::{Event, Window};
use refusal::Refusal;

// The tests behind those of the kernel and the amounts: the preparation's, then 4.
pub fn admitted(
    n: usize,
    window: Window,
    samples: &[f64],
    events: &[Event],
    times: usize,
    sides: usize,
    values: usize,
) -> Result<(), Refusal>
    requires { (n ≤ states) × (length events.now ≤ most_events) × (length samples.now ≤ most_samples) }
    ensures { reply_number result ≡ option_number (first_of (prepareOf n window samples.now events.now
        ∷ unless (room_for (reckoned samples.now events.now) n (room times sides values)) 4 ∷ [])) }
{
    crate::prepared(n, window, samples, events)?;
    let rows = crate::reckoned_rows(samples, events);
    if (rows <= times) & ((rows <= sides) & (rows * n <= values)) {
        Ok(())
    } else {
        Err(Refusal::ShortSlice)
    }
}
