// Little-endian words of a file, or of a part of it, and the head of a sheet: where its pairs put the bodies.
#![tactic(auto)]

ghost use Rattle.std.specs.Prelude.{◌≡◌, ◌+◌, ◌*◌, ◌≤◌, ◌<◌, ◌/◌, length, get_or, take, drop, ◌&&◌};
ghost use Rattle.sheet_words.specs.Words.{little_endian, words_of, word as word_of};
ghost use Rattle.sheet_words.specs.Head.{words_fit, placed};
ghost use Rattle.sheet_words.specs.Places.{next_of, places_of};

use limits::SHEET_WORDS;

const HEAD: usize = 11;

// Word i, whose bytes are there.
// By the library: `from_le_bytes` takes the eight.
pub fn word(bytes: &[u8], i: usize) -> u64
    requires { 8 * i + 8 ≤ length bytes.now }
    ensures { result ≡ word_of (words_of bytes.now) i }
{
    let at = 8 * i;
    let mut eight = [0; 8];
    eight.copy_from_slice(&bytes[at..at + 8]);
    u64::from_le_bytes(eight)
}

// The first word of each body, and the place behind the last.
#[derive(Clone, Copy)]
pub struct Places {
    pub model: usize,
    pub window: usize,
    pub amounts: usize,
    pub samples: usize,
    pub events: usize,
    pub end: usize,
}

// The end of body k where it starts at a place and lies in the file; else a place past the file.
// By place: `at` is the word that the file must name, and no index; the bytes behind it alone would not have the pair.
fn next(bytes: &[u8], k: usize, at: usize) -> usize
    requires { (k < 5) × (88 ≤ length bytes.now) × (at ≤ length bytes.now / 8 + 1) }
    ensures { (result ≡ next_of (words_of bytes.now) at k) × (result ≤ length bytes.now / 8 + 1) }
{
    let total = bytes.len() / 8;
    let first = word(bytes, 1 + 2 * k);
    let count = word(bytes, 2 + 2 * k);
    let rest = total + 1 - at;
    if (first == at as u64) & (count < rest as u64) {
        at + count as usize
    } else {
        total + 1
    }
}

// Where the pairs put the bodies.
pub fn places_of(bytes: &[u8]) -> Places
    requires { 88 ≤ length bytes.now }
    ensures { result ≡ places_of (words_of bytes.now) }
{
    let window = next(bytes, 0, HEAD);
    let amounts = next(bytes, 1, window);
    let samples = next(bytes, 2, amounts);
    let events = next(bytes, 3, samples);
    let end = next(bytes, 4, events);
    Places {
        model: HEAD,
        window,
        amounts,
        samples,
        events,
        end,
    }
}

// Whether the head and the pairs are those of a sheet.
pub fn head_fits(bytes: &[u8]) -> bool
    ensures { result ≡ words_fit bytes.now && placed (words_of bytes.now) }
{
    let total = bytes.len() / 8;
    if total < HEAD {
        return false;
    }
    let places = places_of(bytes);
    ((bytes.len() % 8 == 0) & (total <= SHEET_WORDS))
        & ((word(bytes, 0) == 5) & (places.end == total))
}
