// The parts of a line, as in `sheet`, whose bytes stand in a lent room, with no heap.
ghost use Rattle.std.specs.Prelude.{◌≡◌, ◌<◌, ◌≤◌, ℕ, List, Some, length, IfSome, MatchResult};
ghost use Rattle.replay_answers.specs.declared.error.LineError.TheVariants.{Malformed};
ghost use Rattle.replay_answers.specs.Outcomes.{Gives};
ghost use Rattle.replay_answers.specs.Sheet.{parted_of, bytes_of as bytes_of_words, sheet_words as sheet_words_of, sheet_of};

use crate::LineError;
use crate::words::number;
use arrayvec::ArrayVec;
use limits::SHEET_BYTES;

// The most bytes of a line's sheet: one word more than a sheet has.
pub const SHEET: usize = SHEET_BYTES + 8;

pub type SheetBytes = ArrayVec<u8, SHEET>;

#[derive(Clone, Copy)]
pub struct KeptSheet<'a> {
    pub bytes: &'a [u8],
    // By number: a line stores a reply so.
    pub number: u64,
    pub printout: &'a [u8],
    ghost within: { length bytes.now ≤ 65544 },
}

// What stands before and behind the first semicolon.
#[tactic(auto, unfolding(crate::specs::Sheet::parted_of))]
fn parted(text: &[u8]) -> Result<(&[u8], &[u8]), LineError>
    ensures { Gives (λ parts. (parts.0.now, parts.1.now)) result (parted_of text.now) }
{
    let at = text
        .iter()
        .position(|byte| *byte == b';')
        .ok_or(LineError::Malformed)?;
    Ok((&text[..at], &text[at + 1..]))
}

// Puts the bytes of a text's numbers, low ones first, of which an empty text has none; how many numbers there are.
#[tactic(auto, unfolding(crate::specs::Sheet::sheet_words))]
fn put_words(text: &[u8], bytes: &mut SheetBytes) -> Result<usize, LineError>
    ensures { MatchResult result (λ count. (words : List ℕ) × (sheet_words_of text.now ≡ Some words) × (count ≡ length words)
        × (bytes.new.items ≡ bytes_of_words words))
        (λ e. (e ≡ Malformed) × IfSome (sheet_words_of text.now) (λ words. 8193 < length words)) }
{
    bytes.clear();
    let mut count = 0;
    if text.is_empty() {
        return Ok(count);
    }
    for word in text.split(|byte| *byte == b' ') {
        let word = number(word)?.to_le_bytes();
        if bytes.try_extend_from_slice(&word).is_err() {
            return Err(LineError::Malformed);
        }
        count += 1;
    }
    Ok(count)
}

impl<'a> KeptSheet<'a> {
    // The sheet's bytes stand in the lent room.
    #[tactic(auto, using(crate::proofs::Exits::err_from_is_err_and), unfolding(crate::specs::Sheet::sheet_of))]
    pub fn read(line: &'a [u8], bytes: &'a mut SheetBytes) -> Result<Self, LineError>
        ensures { Gives (λ sheet. (sheet.bytes.now, sheet.number, sheet.printout.now)) result (sheet_of line.now) }
    {
        let (length, rest) = parted(line)?;
        let (reply, rest) = parted(rest)?;
        let (words, printout) = parted(rest)?;
        let length = number(length)? as usize;
        let number = number(reply)?;
        let count = put_words(words, bytes)?;
        // The last word is not always whole.
        if length > SHEET || count != length.div_ceil(8) {
            return Err(LineError::Malformed);
        }
        bytes.truncate(length);
        Ok(KeptSheet {
            bytes: bytes.as_slice(),
            number,
            printout,
        })
    }
}
