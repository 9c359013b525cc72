// The doubles and the window that a sheet's words stand for.
#![tactic(auto)]

ghost use Rattle.std.specs.Prelude.{◌≡◌, ◌+◌, ◌*◌, ◌≤◌, length};
ghost use Rattle.sheet_words.specs.Words.{words_of};
ghost use Rattle.sheet_values.specs.Values.{double_of, doubles_from, propagations_of, sheet_window};

use protocol::Window;

pub fn double(part: &[u8], i: usize) -> f64
    requires { 8 * i + 8 ≤ length part.now }
    ensures { result ≡ double_of (words_of part.now) i }
{
    binary64_bits::of_bits(sheet_words::word(part, i))
}

// As many doubles from word i on as there is room for.
pub fn doubles(part: &[u8], i: usize, out: &mut [f64])
    requires { 8 * (i + length out.old) ≤ length part.now }
    ensures { out.new ≡ doubles_from (words_of part.now) i (length out.old) }
{
    for (k, x) in out.iter_mut().enumerate() {
        *x = double(part, i + k);
    }
}

fn propagations_of(given: u64) -> u64
    ensures { result ≡ propagations_of given }
{
    if given == 0 { 1000 } else { given }
}

#[tactic(auto, unfolding(crate::specs::Values::sheet_window))]
// The window of a run; 1,000 propagations where the word is 0.
pub fn window_of(part: &[u8]) -> Window
    requires { 72 ≤ length part.now }
    ensures { result ≡ sheet_window (words_of part.now) }
{
    Window {
        start: double(part, 0),
        end: double(part, 1),
        rtol: double(part, 2),
        atol: double(part, 3),
        propagations: propagations_of(sheet_words::word(part, 4)),
        events: sheet_words::word(part, 5) as usize,
        outputs: sheet_words::word(part, 6) as usize,
    }
}
