// The parts of a line, with a semicolon between two: how many bytes the sheet has, the printout's number, the sheet's words, the printout.
ghost use Rattle.std.specs.Prelude.{◌≡◌, ◌≤◌, vec_len, IfOk, IfErr};
ghost use Rattle.replay_answers.specs.declared.error.LineError.TheVariants.{OutOfMemory};
ghost use Rattle.replay_answers.specs.Outcomes.{Gives, GivesInMemory};
ghost use Rattle.replay_answers.specs.Sheet.{parted_of, bytes_of as bytes_of_words, sheet_words as sheet_words_of, sheet_of};

use crate::LineError;
use crate::kept_sheet::SHEET;
use crate::words::{number, numbers};
use std::alloc::Global;

// The most bytes of a line's sheet: one word more than a sheet has.
pub const SHEET_ROOM: usize = SHEET;

#[derive(Drop)]
pub struct Sheet<'a> {
    pub bytes: Vec<u8>,
    // By number: a line stores a reply so.
    pub number: u64,
    pub printout: &'a str,
    ghost within: { vec_len bytes ≤ 65544 },
}

// What stands before and behind the first semicolon.
#[tactic(auto, unfolding(crate::specs::Sheet::parted_of))]
fn parted(text: &str) -> Result<(&str, &str), LineError>
    ensures { Gives (λ parts. (parts.0.now, parts.1.now)) result (parted_of text.now) }
{
    text.split_once(';').ok_or(LineError::Malformed)
}

// The numbers of a text, of which an empty one has none.
#[tactic(auto, unfolding(crate::specs::Sheet::sheet_words))]
fn sheet_words(alloc: Global, text: &str) -> Result<Vec<u64>, LineError>
    ensures { GivesInMemory (λ list. list.items) result (sheet_words_of text.now) }
{
    if text.is_empty() {
        Ok(Vec::new(alloc))
    } else {
        numbers(alloc, text)
    }
}

// The bytes of words, low ones first.
fn bytes_of(alloc: Global, words: &[u64]) -> Result<Vec<u8>, LineError>
    ensures items { IfOk result (λ bytes. bytes.items ≡ bytes_of_words words.now) }
    ensures memory { IfErr result (λ e. e ≡ OutOfMemory) }
{
    let mut bytes = Vec::new(alloc);
    for word in words {
        bytes.extend_from_slice(&word.to_le_bytes())?;
    }
    Ok(bytes)
}

impl<'a> Sheet<'a> {
    #[tactic(auto, using(crate::proofs::Exits::err_from_is_err_and), unfolding(crate::specs::Sheet::sheet_of))]
    pub fn read(alloc: Global, line: &'a str) -> Result<Self, LineError>
        ensures { GivesInMemory (λ sheet. (sheet.bytes.items, sheet.number, sheet.printout.now)) result (sheet_of line.now) }
    {
        let (length, rest) = parted(line)?;
        let (reply, rest) = parted(rest)?;
        let (words, printout) = parted(rest)?;
        let length = number(length.as_bytes())? as usize;
        let number = number(reply.as_bytes())?;
        let words = sheet_words(alloc, words)?;
        // The last word is not always whole.
        if length > SHEET_ROOM || words.len() != length.div_ceil(8) {
            return Err(LineError::Malformed);
        }
        let mut bytes = bytes_of(alloc, words.as_slice())?;
        bytes.truncate(length);
        Ok(Sheet {
            bytes,
            number,
            printout,
        })
    }
}
