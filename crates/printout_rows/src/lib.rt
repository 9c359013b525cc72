// The rows of a printout as lines.
#![tactic(auto)]

ghost use Rattle.std.specs.Prelude.{◌∷◌, ◌*◌, length};
ghost use Rattle.printout_numbers.specs.Digits.{double_text};
ghost use Rattle.printout_numbers.specs.Writer.{HasRoom, Writes};
ghost use Rattle.printout_rows.specs.Row.{side_text, amounts_text, row_line, side_length};
ghost use Rattle.printout_rows.specs.Rows.{row_lines, HasRows};

use printout_numbers::Writer;

// By byte: a lent cell may hold any byte, and the text of each is fixed, where a `Side` is one of two.
fn put_side(w: &mut Writer<'_>, side: u8)
    requires { HasRoom (side_length side) w.old }
    ensures { Writes (side_text side) w.old w.new }
{
    w.put_text(if side == 1 { b"pre" } else { b"post" });
}

fn put_amount(w: &mut Writer<'_>, x: f64)
    requires { HasRoom 17 w.old }
    ensures { Writes (32 ∷ double_text x) w.old w.new }
{
    w.put_text(b" ");
    w.put_bits(x);
}

#[tactic(auto, using(crate::proofs::RowLengths::lengths))]
fn put_amounts(w: &mut Writer<'_>, amounts: &[f64])
    requires { HasRoom (17 * length amounts.now) w.old }
    ensures { Writes (amounts_text amounts.now) w.old w.new }
{
    for x in amounts {
        put_amount(w, *x);
    }
}

// By byte: its side is that of a lent cell, which may hold any byte, and the text of each is fixed, where a `Side` is one of two.
#[tactic(auto, using(crate::proofs::RowLengths::lengths))]
pub fn row_line(w: &mut Writer<'_>, time: f64, side: u8, amounts: &[f64])
    requires { HasRoom (length (row_line time side amounts.now)) w.old }
    ensures { Writes (row_line time side amounts.now) w.old w.new }
{
    w.put_bits(time);
    w.put_text(b" ");
    put_side(w, side);
    put_amounts(w, amounts);
    w.put_text(b"\n");
}

// The first rows of a run, of n amounts each.
#[derive(Clone, Copy)]
pub struct PrintedRows<'a> {
    pub n: usize,
    pub rows: usize,
    pub times: &'a [f64],
    pub sides: &'a [u8],
    pub values: &'a [f64],
    ghost held: { HasRows n rows times.now sides.now values.now },
}

impl PrintedRows<'_> {
    // Their lines.
    pub fn put(&self, w: &mut Writer<'_>)
        requires { HasRoom (length (row_lines self.now.n self.now.rows self.now.times.now self.now.sides.now self.now.values.now)) w.old }
        ensures { Writes (row_lines self.now.n self.now.rows self.now.times.now self.now.sides.now self.now.values.now) w.old w.new }
    {
        // By index: chunks of n amounts would ask that n is not 0.
        for k in 0..self.rows {
            let from = k * self.n;
            let amounts = &self.values[from..from + self.n];
            row_line(w, self.times[k], self.sides[k], amounts);
        }
    }
}
