// The doubles of bit patterns, and the floor of an f64, worked out from its bits.
#![tactic(auto)]

ghost use Rattle.std.specs.Prelude.{◌≡◌};
ghost use Rattle.std.specs.Float.{binary64};
ghost use Rattle.std.specs.Float.Ieee.{nan_bits, of_bits};
ghost use Rattle.binary64.specs.Doubles.{floor_of};

// Whether a pattern is a NaN's.
pub fn is_nan_bits(bits: u64) -> bool
    ensures { result ≡ nan_bits binary64 bits }
{
    bits % 0x8000_0000_0000_0000 > 0x7ff0_0000_0000_0000
}

// The double of a pattern.
// By hand: every NaN's pattern gives the one NaN, where the library's `from_bits` takes none.
pub fn of_bits(bits: u64) -> f64
    ensures { result ≡ of_bits binary64 bits }
{
    if is_nan_bits(bits) {
        return f64::NAN;
    }
    f64::from_bits(bits)
}

// The largest whole number that is not above x, where x is finite and its sign is clear; else x.
// e is the exponent's field: from 1075 on x is whole or infinite, and below 1023 x is below 1.
// Between, the lowest 1075 - e bits are the fraction's, and the mask clears them.
// By bits: a rule of the project; the library's `floor` rounds a value whose sign is set too, which is handed back here.
pub fn floor(x: f64) -> f64
    ensures { result ≡ floor_of x }
{
    if x.is_nan() {
        return x;
    }
    let bits: u64 = f64::to_bits(x);
    if (bits & 0x8000_0000_0000_0000) != 0 {
        return x;
    }
    let e: u64 = (bits >> 52) & 0x7ff;
    if e >= 1075 {
        return x;
    }
    if e < 1023 {
        return 0.0;
    }
    let k: u64 = 1075 - e;
    let whole: u64 = 0xffff_ffff_ffff_ffff << k;
    f64::from_bits(bits & whole)
}
