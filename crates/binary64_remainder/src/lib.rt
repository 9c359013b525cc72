// The remainder of a division of doubles, worked out from bits.
#![tactic(auto)]

ghost use Rattle.std.specs.Prelude.{◌≡◌, ◌+◌, ◌*◌, ◌%◌, ◌^◌, ◌<◌, ◌≤◌, false};
ghost use Rattle.std.specs.Float.{binary64};
ghost use Rattle.std.specs.Float.Ieee.{rem, round};
ghost use Rattle.binary64_remainder.specs.Patterns.{digits_of, shift_of, units_of};

// The digits of a finite double's pattern without its sign.
fn digits(bits: u64) -> u64
    ensures { result ≡ digits_of bits }
{
    if bits < 0x0010_0000_0000_0000 {
        return bits;
    }
    0x0010_0000_0000_0000 + bits % 0x0010_0000_0000_0000
}

// How often they are doubled.
fn shift(bits: u64) -> u64
    ensures { result ≡ shift_of bits }
{
    (bits / 0x0010_0000_0000_0000).saturating_sub(1)
}

// What is left of r doubled `times` times, by q.
fn doubled(r: u64, times: u64, q: u64) -> u64
    requires within { (0 < q) × (q ≤ 2 ^ 53) }
    ensures { result ≡ r * 2 ^ times % q }
{
    let mut left = r % q;
    // By count: the loop counts turns, and has no index.
    for _i in 0..times {
        left = (left + left) % q;
    }
    left
}

// The pattern of 2 to the k units.
fn power(k: u64) -> u64
    requires { k < 2046 }
    ensures units { units_of result ≡ 2 ^ k }
    ensures within { result < 0x7ff0_0000_0000_0000 }
{
    if k < 52 {
        return 1 << k;
    }
    (k - 51) * 0x0010_0000_0000_0000
}

// r times 2 to the k units.
fn scaled(r: u64, k: u64) -> f64
    requires { (0 < r) × (r ≤ 2 ^ 53) × (k < 2046) }
    ensures { result ≡ round binary64 false (r * 2 ^ k) (2 ^ 1074) }
{
    r as f64 * f64::from_bits(power(k))
}

// The remainder of two patterns without their signs.
fn of_patterns(a: u64, b: u64) -> f64
    requires { (a < 0x7ff0_0000_0000_0000) × (0 < b) × (b < 0x7ff0_0000_0000_0000) }
    ensures { result ≡ round binary64 false (units_of a % units_of b) (2 ^ 1074) }
{
    let j = shift(a);
    let k = shift(b);
    if j < k {
        let r = digits(a);
        if r == 0 {
            return 0.0;
        }
        return scaled(r, j);
    }
    let r = doubled(digits(a), j - k, digits(b));
    if r == 0 {
        return 0.0;
    }
    scaled(r, k)
}

// x less the whole part of x / y times y, with x's sign: IEEE's `%`.
// By bits: of `%` a compiler makes a call of C's `fmod`, and programs and archives need nothing of that library's arithmetic.
pub fn remainder(x: f64, y: f64) -> f64
    ensures { result ≡ rem binary64 x y }
{
    if !binary64::is_finite(x) {
        return f64::NAN;
    }
    if y.is_nan() {
        return y;
    }
    if !binary64::is_finite(y) {
        return x;
    }
    let a = f64::to_bits(x);
    let b = f64::to_bits(y) % 0x8000_0000_0000_0000;
    if b == 0 {
        return f64::NAN;
    }
    let r = of_patterns(a % 0x8000_0000_0000_0000, b);
    if a < 0x8000_0000_0000_0000 { r } else { -r }
}
