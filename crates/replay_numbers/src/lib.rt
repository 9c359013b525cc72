// The numbers of stored answers: lower-case hexadecimal, no leading zeros; and whether a double has the pattern of one.
// By hand: `from_str_radix` and `to_digit` take upper case too, and the first also a sign and zeros in front.
#![tactic(auto)]

ghost use Rattle.std.specs.Prelude.{◌≡◌, ℕ, ◌<◌, ◌↔◌, IfSome, IsTrue, length, slice_index, slice_index_or};
ghost use Rattle.std.specs.Float.{nan};
ghost use Rattle.replay_numbers.specs.Doubles.{same_bits};
ghost use Rattle.replay_numbers.specs.Text.{digit_of, spelled as spelled_of, number_of};

// The value of a digit.
#[tactic(auto, unfolding(crate::specs::Text::digit_of))]
fn digit(byte: u8) -> Option<u64>
    ensures value { result ≡ digit_of byte }
    ensures below { IfSome result (λ d. d < 16) }
{
    match byte {
        b'0'..=b'9' => Some(u64::from(byte - b'0')),
        b'a'..=b'f' => Some(u64::from(byte - b'a') + 10),
        _ => None,
    }
}

// Whether there is a first byte, which is no 0 in front of others.
#[tactic(auto, unfolding(crate::specs::Text::spelled))]
fn spelled(word: &[u8]) -> bool
    ensures { result ≡ spelled_of word.now }
{
    !matches!(word, [] | [b'0', _, ..])
}

// The number that a word spells, where it fits 64 bits.
#[tactic(auto, unfolding(crate::specs::Text::number_of, crate::specs::Text::number_from))]
pub fn number(word: &[u8]) -> Option<u64>
    ensures { result ≡ number_of word.now }
{
    if !spelled(word) {
        return None;
    }
    let mut value = 0u64;
    for byte in word {
        let digit = digit(*byte)?;
        value = value.checked_mul(16)? + digit;
    }
    Some(value)
}

// Whether x has this pattern; all NaNs count as one.
// By bits: `==` would take -0.0 for 0.0, and no NaN for another.
#[tactic(auto, unfolding(crate::specs::Doubles::same_bits))]
pub fn same(x: f64, bits: u64) -> bool
    ensures { result ≡ same_bits x bits }
{
    if x.is_nan() {
        binary64_bits::is_nan_bits(bits)
    } else {
        x.to_bits() == bits
    }
}

// Whether each double has the pattern in its place.
pub fn all_same(list: &[f64], patterns: &[u64]) -> bool
    ensures { IsTrue result ↔ (length list.now ≡ length patterns.now) × ((k : ℕ) → k < length list.now → IsTrue (same_bits (slice_index_or list.now k nan) (slice_index patterns.now k))) }
{
    list.len() == patterns.len()
        && list
            .iter()
            .zip(patterns)
            .all(|(x, pattern)| same(*x, *pattern))
}
