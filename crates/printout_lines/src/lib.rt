// The first line, the last line and the refusal of a run's printout, and how many bytes it has.
#![tactic(auto)]

ghost use Rattle.std.specs.Prelude.{◌+◌, ◌≤◌, length, ◌≡◌};
ghost use Rattle.limits.specs.Limits.{states, most_rows};
ghost use Rattle.printout_numbers.specs.Digits.{places as places_of};
ghost use Rattle.printout_numbers.specs.Writer.{HasRoom, Writes};
ghost use Rattle.printout_lines.specs.Lines.{head_line, named_line, refused_text};
ghost use Rattle.printout_rows.specs.Row.{side_length};
ghost use Rattle.printout_rows.specs.Rows.{rows_length};

use printout_numbers::{Writer, places};

// "rows" and their number.
#[tactic(auto, using(crate::proofs::Lengths::lengths))]
pub fn put_head(w: &mut Writer<'_>, rows: usize)
    requires { HasRoom (length (head_line rows)) w.old }
    ensures { Writes (head_line rows) w.old w.new }
{
    w.put_text(b"rows ");
    w.put_decimal(rows as u64);
    w.put_text(b"\n");
}

// A name and a double.
#[tactic(auto, using(crate::proofs::Lengths::lengths))]
pub fn put_named(w: &mut Writer<'_>, name: &[u8], x: f64)
    requires { HasRoom (length name.now + 17) w.old }
    ensures { Writes (named_line name.now x) w.old w.new }
{
    w.put_text(name);
    w.put_bits(x);
    w.put_text(b"\n");
}

// The text of a refusal.
// By number: the line of a refusal has its number, whatever names it.
#[tactic(auto, using(crate::proofs::Lengths::lengths))]
pub fn put_refused(w: &mut Writer<'_>, number: u64, time: f64)
    requires { HasRoom (length (refused_text number time)) w.old }
    ensures { Writes (refused_text number time) w.old w.new }
{
    w.put_text(b"refused ");
    w.put_decimal(number);
    w.put_text(b" ");
    w.put_bits(time);
    w.put_text(b"\n");
}

// How many bytes that has.
// By number: it is of the text above, which has any number.
#[tactic(auto, using(crate::proofs::Most::most))]
pub fn refused_length(number: u64) -> usize
    ensures { result ≡ 26 + places_of 19 number }
{
    26 + places(number)
}

// By byte: a lent cell may hold any byte, and the text of each is fixed, where a `Side` is one of two.
fn side_length(side: u8) -> usize
    ensures { result ≡ side_length side }
{
    if side == 1 { 3 } else { 4 }
}

// How many bytes the lines of the first rows have.
// By count: the first rows of lent cells that may hold more; sides cut to them would ask for a proof that their lines are the same.
fn lines_length(rows: usize, n: usize, sides: &[u8]) -> usize
    requires { (rows ≤ length sides.now) × (n ≤ states) × (rows ≤ most_rows) }
    ensures { result ≡ rows_length n rows sides.now }
{
    let mut sum = 0;
    for side in &sides[..rows] {
        sum += 18 + side_length(*side) + 17 * n;
    }
    sum
}

// How many bytes the text of a run has that is not refused.
// By count: as its lines above, of the first rows of lent cells that may hold more.
#[tactic(auto, using(crate::proofs::Most::most))]
pub fn run_length(rows: usize, n: usize, sides: &[u8]) -> usize
    requires { (rows ≤ length sides.now) × (n ≤ states) × (rows ≤ most_rows) }
    ensures { result ≡ 31 + places_of 19 rows + rows_length n rows sides.now }
{
    31 + places(rows as u64) + lines_length(rows, n, sides)
}
