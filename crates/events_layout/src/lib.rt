// Events laid out as 64-bit words, six to an event: kind, time, target, amount or value, duration or order, stops.
#![tactic(auto)]

ghost use Rattle.std.specs.Prelude.{◌≡◌, List, ℕ, ◌+◌, ◌*◌, ◌^◌, ◌≤◌, ◌<◌, length, get_or, take};
ghost use Rattle.limits.specs.Limits.{most_events, event_size};
ghost use Rattle.events_layout.specs.Fields.{words_listed, event_from};
ghost use Rattle.events_layout.specs.Layout.{word_at, event_fits, events_fit, event_of, events_of};

use limits::{EVENT_SIZE, EVENTS};
use protocol::{Event, EventList};

// 64-bit words, however they are stored.
// By word: a sheet's bytes lend no slice of words.
pub trait Words {
    ghost words: { Self → List ℕ };

    fn count(&self) -> usize
        ensures { result ≡ length (words self.now) };

    // By word: `Index` would lend a `&u64`, and a sheet's bytes hold none to lend.
    fn word(&self, i: usize) -> u64
        requires { i < length (words self.now) }
        ensures { result ≡ get_or (words self.now) i 0 };
}

impl<'a> Words for &'a [u64] {
    ghost words = { λ s. s.now };

    fn count(&self) -> usize {
        self.len()
    }

    // By word: the trait's method, where `Index` would lend a `&u64` that a sheet's bytes do not hold.
    fn word(&self, i: usize) -> u64 {
        self[i]
    }
}

// Whether a kind, and a reset's order and `stops`, are among the listed values.
// By word: it holds any number, and an enum in between would be matched again at each use.
pub fn words_listed(kind: u64, order: u64, stops: u64) -> bool
    ensures { result ≡ words_listed kind order stops }
{
    match kind {
        0 | 1 => true,
        2 => (order <= 65535) & (stops <= 1),
        _ => false,
    }
}

// The event of six words. A kind above 2 is read as a reset.
// By word: a `From` would be of an array or a tuple, and of the protocol's own event.
#[tactic(auto, unfolding(crate::specs::Fields::event_from))]
pub fn event_from(kind: u64, time: u64, target: u64, amount: u64, last: u64, stops: u64) -> Event
    ensures { result ≡ event_from kind time target amount last stops }
{
    let at = binary64_bits::of_bits(time);
    let given = binary64_bits::of_bits(amount);
    match kind {
        0 => Event::Bolus {
            time: at,
            target: target as usize,
            amount: given,
        },
        1 => Event::Infusion {
            time: at,
            target: target as usize,
            amount: given,
            duration: binary64_bits::of_bits(last),
        },
        _ => Event::Reset {
            time: at,
            target: target as usize,
            value: given,
            order: (last % 65536) as u16,
            stops: stops == 1,
        },
    }
}

// Word k of event i.
// By event: that its words are there is asked of three functions; a struct that keeps it would be made anew for each event of a list.
fn word_at<W: Words + Copy>(words: W, i: usize, k: usize) -> u64
    requires { (event_size * i + event_size ≤ length (W.words words)) × (length (W.words words) < 2 ^ 64) × (k < event_size) }
    ensures { result ≡ word_at (W.words words) i k }
{
    words.word(EVENT_SIZE * i + k)
}

#[tactic(auto, unfolding(crate::specs::Layout::event_fits))]
fn event_fits<W: Words + Copy>(words: W, i: usize) -> bool
    requires { (event_size * i + event_size ≤ length (W.words words)) × (length (W.words words) < 2 ^ 64) }
    ensures { result ≡ event_fits (W.words words) i }
{
    words_listed(
        word_at(words, i, 0),
        word_at(words, i, 4),
        word_at(words, i, 5),
    )
}

// Whether the words are whole events, each of listed values.
pub fn events_fit<W: Words + Copy>(words: W) -> bool
    ensures { result ≡ events_fit (W.words words) }
{
    let total = words.count();
    let count = total / EVENT_SIZE;
    (total % EVENT_SIZE == 0) & (0..count).all(|i| event_fits(words, i))
}

// Event i, whose words are there.
#[tactic(auto, unfolding(crate::specs::Layout::event_of))]
pub fn event_of<W: Words + Copy>(words: W, i: usize) -> Event
    requires { event_size * i + event_size ≤ length (W.words words) }
    ensures { result ≡ event_of (W.words words) i }
{
    // That there is a count says that each place is a usize.
    let _count = words.count();
    event_from(
        word_at(words, i, 0),
        word_at(words, i, 1),
        word_at(words, i, 2),
        word_at(words, i, 3),
        word_at(words, i, 4),
        word_at(words, i, 5),
    )
}

// The events, as many as a list holds: those behind are left out.
pub fn events_of<W: Words + Copy>(words: W) -> EventList
    ensures { result.items ≡ take most_events (events_of (W.words words)) }
{
    let count = (words.count() / EVENT_SIZE).min(EVENTS);
    let mut list = EventList::new();
    // By index: `collect` asks for an allocator, and can fail.
    for i in 0..count {
        list.push(event_of(words, i));
    }
    list
}
