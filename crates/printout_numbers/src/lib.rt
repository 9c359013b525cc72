// Numbers and short texts as bytes.
#![tactic(auto)]

ghost use Rattle.std.specs.Prelude.{◌≡◌, ◌+◌, ◌≤◌, ◌<◌, length};
ghost use Rattle.printout_numbers.specs.Digits.{glyph, digits, places as places_of, decimal, bits_of, double_text};
ghost use Rattle.printout_numbers.specs.Writer.{HasRoom, Writes};

// The code of a digit.
// By hand, as the digits below: `write!` hands back a Result, and a text that has room cannot fail.
#[tactic(auto, unfolding(crate::specs::Digits::glyph))]
fn digit(d: u64) -> u8
    requires { d < 16 }
    ensures { result ≡ glyph d }
{
    if d < 10 { 48 + d as u8 } else { 87 + d as u8 }
}

// How many decimal digits the word has.
pub fn places(word: u64) -> usize
    ensures { result ≡ places_of 19 word }
{
    word.max(1).ilog10() as usize + 1
}

// The bits of a double.
// By hand: every NaN has the same, where `to_bits` leaves them open.
#[tactic(auto, unfolding(crate::specs::Digits::bits_of))]
pub fn bits(x: f64) -> u64
    ensures { result ≡ bits_of x }
{
    if x.is_nan() {
        0x7ff8_0000_0000_0000
    } else {
        x.to_bits()
    }
}

// Lent bytes in which a text grows: it ends ahead of place `at`.
#[derive(Drop)]
pub struct Writer<'a> {
    pub out: &'a mut [u8],
    pub at: usize,
}

impl Writer<'_> {
    // The last `count` digits of the word.
    fn put_digits(&mut self, base: u64, count: usize, word: u64)
        requires { (0 < base) × (base ≤ 16) × HasRoom count self.old }
        ensures { Writes (digits base count word) self.old self.new }
    {
        let mut left = word;
        // By index: tried by `iter_mut().rev()`, of which nothing says what the bytes hold once they are back.
        for i in (0..count).rev() {
            self.out[self.at + i] = digit(left % base);
            left /= base;
        }
        self.at += count;
    }

    #[tactic(auto, using(crate::proofs::Counts::lengths), unfolding(crate::specs::Digits::decimal))]
    pub fn put_decimal(&mut self, word: u64)
        requires { HasRoom (length (decimal word)) self.old }
        ensures { Writes (decimal word) self.old self.new }
    {
        self.put_digits(10, places(word), word);
    }

    // Its bits in hexadecimal.
    #[tactic(auto, unfolding(crate::specs::Digits::double_text, crate::specs::Digits::hexadecimal))]
    pub fn put_bits(&mut self, x: f64)
        requires { HasRoom 16 self.old }
        ensures { Writes (double_text x) self.old self.new }
    {
        self.put_digits(16, 16, bits(x));
    }

    pub fn put_text(&mut self, text: &[u8])
        requires { HasRoom (length text.now) self.old }
        ensures { Writes text.now self.old self.new }
    {
        let end = self.at + text.len();
        self.out[self.at..end].copy_from_slice(text);
        self.at = end;
    }
}
