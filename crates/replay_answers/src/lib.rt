// What programs that replay stored answers share: the loop over the lines, the numbers of a line and what they stand for, a line's sheet, the
// counts of what the calls replied. The programs call what allocates nothing: `Words`, `Tally` and what `entries`, `kept`, `kept_parameters` and
// `kept_sheet` have. The rest is for lines, input and rooms of any size and for entries in any number; that it succeeds, but for memory that runs
// out, `tests` shows.
#![tactic(auto)]

mod entries;
mod entry_tally;
mod error;
mod kept;
mod kept_parameters;
mod kept_sheet;
mod parameters;
mod replay;
mod sheet;
mod tally;
#[cfg(test)]
mod tests;
mod words;

pub use entries::{is_comment, replay_entries, room, tally_lines};
pub use entry_tally::EntryTally;
pub use error::{LineError, NoCall};
pub use kept::{Numbers, ROOM, kept_doubles, kept_numbers};
pub use kept_parameters::KeptParameters;
pub use kept_sheet::{KeptSheet, SHEET, SheetBytes};
pub use parameters::Parameters;
pub use replay::{replay_lines, replay_main};
pub use sheet::{SHEET_ROOM, Sheet};
pub use tally::{Called, Placed, Tally};
pub use words::{Words, doubles, numbers};
