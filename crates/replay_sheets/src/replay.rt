// One line: a sheet's run or steady state, and the printout that it must give.
ghost use Rattle.std.specs.Prelude.{◌≤◌};
ghost use Rattle.replay_sheets.specs.Places.{place_of};

use printout::PrintReply;
use refusal::Refusal;
use replay_answers::{Called, KeptSheet, NoCall, Placed, SheetBytes};
use std::fmt;

// The longest printout of a line.
const TEXT: usize = 2048;

// What the lent cells hold before the call: no byte of a printout.
const CELL: u8 = 200;

#[derive(Clone, Copy)]
pub enum Entry {
    RunSheet,
    SteadySheet,
}

impl Placed for Entry {
    ghost place_of = { place_of };

    fn place(&self) -> usize {
        *self as usize
    }
}

impl fmt::Display for Entry {
    fn fmt<W: fmt::Write>(&self, f: &mut fmt::Formatter<W>) -> fmt::Result {
        f.write_str(match self {
            Entry::RunSheet => "run_sheet",
            Entry::SteadySheet => "steady_sheet",
        })
    }
}

// Whether a call with one cell too few, `length`, refuses and leaves all cells: with 4 in place of an answer.
fn is_refused<F: Fn(&[u8], &mut [u8]) -> PrintReply>(
    print: &F,
    sheet: KeptSheet<'_>,
    length: usize,
) -> bool
    requires call { F.IsAlwaysCallable print.now }
    requires room { length ≤ 2048 }
{
    let mut cells = [CELL; TEXT];
    let printed = print(sheet.bytes, &mut cells[..length]);
    let number = match sheet.number {
        0 => refusal::number(Err(Refusal::ShortSlice)),
        number => number,
    };
    refusal::number(printed.reply) == number
        && printed.length == 0
        && cells.iter().all(|cell| *cell == CELL)
}

// The byte that a byte of the line stands for: a slash is a line feed.
fn written(byte: u8) -> u8 {
    if byte == b'/' { b'\n' } else { byte }
}

// Calls what prints the sheet with one cell too few, then with as many as the text has.
fn called<F: Fn(&[u8], &mut [u8]) -> PrintReply + Drop>(
    entry: Entry,
    print: F,
    sheet: KeptSheet<'_>,
) -> Result<Called<Entry>, NoCall>
    requires { F.IsAlwaysCallable print }
{
    let text = sheet.printout;
    if text.is_empty() || text.len() > TEXT {
        return Err(NoCall);
    }
    let refused = is_refused(&print, sheet, text.len() - 1);
    let mut cells = [CELL; TEXT];
    let cells = &mut cells[..text.len()];
    let printed = print(sheet.bytes, cells);
    let is_text = cells
        .iter()
        .copied()
        .eq(text.iter().map(|byte| written(*byte)));
    let same = refused && printed.length == text.len() && is_text;
    Ok(Called::new(entry, printed.reply, sheet.number, same))
}

// A line that starts with an s is one for `steady_sheet`.
pub fn replay(line: &[u8]) -> Result<Called<Entry>, NoCall> {
    let mut bytes = SheetBytes::new();
    match line.strip_prefix(b"s") {
        Some(rest) => called(
            Entry::SteadySheet,
            rig_steady_sheet::steady_sheet,
            KeptSheet::read(rest, &mut bytes)?,
        ),
        None => called(
            Entry::RunSheet,
            rig_run_printout::run_sheet,
            KeptSheet::read(line, &mut bytes)?,
        ),
    }
}
