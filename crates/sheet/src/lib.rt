// The reader of a sheet: bytes of any length and contents to the places of its bodies, or 40, then 5. The words stay in the file, and each
// body is read as its own part of it.
#![tactic(auto)]

ghost use Rattle.std.specs.Prelude.{◌≡◌, ◌*◌, ◌≤◌, length};
ghost use Rattle.sheet_words.specs.Words.{words_of};
ghost use Rattle.sheet.specs.Model.{model_fits};
ghost use Rattle.refusal.specs.Numbers.{outcome_of};
ghost use Rattle.sheet.specs.Sheet.{sheet_of, bodies_fit};
ghost use Rattle.sheet.specs.Reader.{read_places, Located, Between};

use events_layout::Words;
use limits::{CYCLE_EVENTS, EVENT_SIZE, SAMPLES, STATES, VOLUMES};
use refusal::Refusal;
use sheet_words::Places;

// The words of the window.
const WINDOW: usize = 9;

// Clearance, depot, absorption, volume count, volumes, exchanges.
pub fn model_fits(part: &[u8]) -> bool
    ensures { result ≡ model_fits (words_of part.now) }
{
    let count = part.len() / 8;
    if count < 4 {
        return false;
    }
    let depot = sheet_words::word(part, 1);
    let volumes = sheet_words::word(part, 3);
    (depot <= 1)
        & ((1 <= volumes)
            & ((volumes <= VOLUMES as u64) & (count as u64 == 2 * (volumes % STATES as u64) + 3)))
}

// A part of a file, as its little-endian 64-bit words.
#[derive(Clone, Copy)]
pub struct Part<'a>(pub &'a [u8]);

impl<'a> Words for Part<'a> {
    ghost words = { λ s. words_of s.0.now };

    fn count(&self) -> usize {
        self.0.len() / 8
    }

    // By word: the trait's method; bytes hold no `u64` that `Index` could lend.
    fn word(&self, i: usize) -> u64 {
        sheet_words::word(self.0, i)
    }
}

// A body as its own part of the file: from its first byte to its end.
pub fn body(bytes: &[u8], first: usize, end: usize) -> &[u8]
    requires { (first ≤ end) × (8 * end ≤ length bytes.now) }
    ensures { Between bytes.now first end result.now }
{
    &bytes[8 * first..8 * end]
}

// Whether the bodies between these places fit.
fn bodies_fit(bytes: &[u8], places: Places) -> bool
    requires { Located (words_of bytes.now) places }
    ensures { result ≡ bodies_fit (sheet_of (words_of bytes.now)) }
{
    let model = model_fits(body(bytes, places.model, places.window));
    let events = events_layout::events_fit(Part(body(bytes, places.events, places.end)));
    model & ((places.amounts - places.window == WINDOW) & events)
}

// A sheet's places, or 40, then 5.
pub fn read_sheet(bytes: &[u8]) -> Result<Places, Refusal>
    ensures { outcome_of result ≡ read_places bytes.now }
{
    if !sheet_words::head_fits(bytes) {
        return Err(Refusal::Layout);
    }
    let places = sheet_words::places_of(bytes);
    let fits = bodies_fit(bytes, places);
    let events = places.end - places.events;
    let samples = places.events - places.samples;
    let within = (events / EVENT_SIZE <= CYCLE_EVENTS) & (samples <= SAMPLES);
    if !fits {
        return Err(Refusal::Layout);
    }
    if !within {
        return Err(Refusal::Limit);
    }
    Ok(places)
}
