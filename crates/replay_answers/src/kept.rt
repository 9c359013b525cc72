// The numbers and doubles of a line in arrays of fixed room, with no heap.
ghost use Rattle.std.specs.Prelude.{◌≡◌, map, take};
ghost use Rattle.std.specs.Float.{binary64};
ghost use Rattle.std.specs.Float.Ieee.{of_bits};
ghost use Rattle.replay_answers.specs.Outcomes.{Gives};
ghost use Rattle.replay_answers.specs.Words.{kept_numbers as kept_of};

use crate::LineError;
use crate::words::number;
use arrayvec::ArrayVec;

// The most numbers that a line has.
pub const ROOM: usize = 256;

pub type Numbers = ArrayVec<u64, ROOM>;

// The numbers of a line, one space between two. A line with more than ROOM is refused.
pub fn kept_numbers(line: &[u8]) -> Result<Numbers, LineError>
    ensures { Gives (λ list. list.items) result (kept_of 256 line.now) }
{
    let mut numbers = Numbers::new();
    for word in line.split(|byte| *byte == b' ') {
        let number = number(word)?;
        if numbers.is_full() {
            return Err(LineError::Malformed);
        }
        numbers.push(number);
    }
    Ok(numbers)
}

// The doubles of patterns, of as many as there is room for.
pub fn kept_doubles<const N: usize>(patterns: &[u64]) -> ArrayVec<f64, N>
    ensures { result.items ≡ map (of_bits binary64) (take N patterns.now) }
{
    let patterns = &patterns[..patterns.len().min(N)];
    let mut list = ArrayVec::new();
    for bits in patterns {
        list.push(binary64_bits::of_bits(*bits));
    }
    list
}
