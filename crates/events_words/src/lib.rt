// Events written as 64-bit words, six to an event: the layout that `events_layout` reads. Words that a kind lacks are 0.
#![tactic(auto)]

ghost use Rattle.std.specs.Prelude.{◌≡◌, ◌+◌, ◌≤◌, length};
ghost use Rattle.limits.specs.Limits.{event_size};
ghost use Rattle.printout_numbers.specs.Written.{Wrote};
ghost use Rattle.events_words.specs.Words.{event_words};

use limits::EVENT_SIZE;
use protocol::Event;

// By hand: a `From` would be of two types of other crates.
#[tactic(auto, unfolding(crate::specs::Words::event_words))]
fn words_of(event: Event) -> [u64; EVENT_SIZE]
    ensures { result ≡ event_words event }
{
    match event {
        Event::Bolus {
            time,
            target,
            amount,
        } => [
            0,
            printout_numbers::bits(time),
            target as u64,
            printout_numbers::bits(amount),
            0,
            0,
        ],
        Event::Infusion {
            time,
            target,
            amount,
            duration,
        } => [
            1,
            printout_numbers::bits(time),
            target as u64,
            printout_numbers::bits(amount),
            printout_numbers::bits(duration),
            0,
        ],
        Event::Reset {
            time,
            target,
            value,
            order,
            stops,
        } => [
            2,
            printout_numbers::bits(time),
            target as u64,
            printout_numbers::bits(value),
            u64::from(order),
            u64::from(stops),
        ],
    }
}

// The event's words from place at on; the place behind them.
// By place: `chunks_exact_mut` promises nothing of what a slice holds once its parts are back, so the place is counted.
pub fn put_event(out: &mut [u64], at: usize, event: Event) -> usize
    requires { at + event_size ≤ length out.old }
    ensures { Wrote (event_words event) at out.old result out.new }
{
    let words = words_of(event);
    let end = at + EVENT_SIZE;
    out[at..end].copy_from_slice(&words);
    end
}
