// The bytes of one more cycle from the amounts of a closed one, into lent cells, and whether it closes.
#![tactic(auto)]

ghost use Rattle.std.specs.Prelude.{◌≡◌, ◌≤◌, ◌*◌, ◌++◌, length, take};
ghost use Rattle.limits.specs.Limits.{states};
ghost use Rattle.cycle.specs.Closed.{scaled_of};
ghost use Rattle.printout_cycle.specs.Closes.{state_closes, closes as closesOf};
ghost use Rattle.printout_numbers.specs.Writer.{HasRoom, Writes};
ghost use Rattle.printout_cycle.specs.Lines.{field_text, cycle_line, cycle_lines};
ghost use Rattle.printout.specs.Cells.{Wrote};
ghost use Rattle.printout.specs.Replies.{Prints, answer};
ghost use Rattle.printout_cycle.specs.CyclePrintout.{verdict_line, lines_text, lines_length};

use cycle::SteadyStateTolerance;
use periodic_residual::scale;
use printout::{PrintReply, reply_of};
use printout_numbers::{Writer, bits};

// |end − start| over the scale.
pub fn scaled(tolerance: SteadyStateTolerance, start: f64, end: f64) -> f64
    ensures { result ≡ scaled_of tolerance start end }
{
    binary64::abs(end - start) / scale(tolerance, start, end)
}

// Whether the scale is finite, the scaled residual at most 1, and the residual the one told, bit for bit.
fn state_closes(tolerance: SteadyStateTolerance, start: f64, end: f64, residual: f64) -> bool
    ensures { result ≡ state_closes tolerance start end residual }
{
    let divisor = scale(tolerance, start, end);
    let ratio = scaled(tolerance, start, end);
    binary64::is_finite(divisor) & ((ratio <= 1.0) & (bits(end - start) == bits(residual)))
}

// A double and a space.
#[tactic(auto, using(printout_numbers::proofs::Counts::double_length))]
fn put_field(w: &mut Writer<'_>, x: f64)
    requires { HasRoom 17 w.old }
    ensures { Writes (field_text x) w.old w.new }
{
    w.put_bits(x);
    w.put_text(b" ");
}

// Start, end, residual and scaled residual of a state.
#[tactic(auto, using(crate::proofs::Lengths::field_length, printout_numbers::proofs::Counts::double_length))]
fn cycle_line(w: &mut Writer<'_>, tolerance: SteadyStateTolerance, start: f64, end: f64)
    requires { HasRoom 68 w.old }
    ensures { Writes (cycle_line tolerance start end) w.old w.new }
{
    put_field(w, start);
    put_field(w, end);
    put_field(w, end - start);
    w.put_bits(scaled(tolerance, start, end));
    w.put_text(b"\n");
}

// "closed" or "not closed".
fn put_verdict(w: &mut Writer<'_>, closed: bool)
    requires { HasRoom (length (verdict_line closed)) w.old }
    ensures { Writes (verdict_line closed) w.old w.new }
{
    if closed {
        w.put_text(b"closed\n");
    } else {
        w.put_text(b"not closed\n");
    }
}

fn lines_length(n: usize, closed: bool) -> usize
    requires { n ≤ states }
    ensures { result ≡ lines_length n closed }
{
    if closed { 68 * n + 7 } else { 68 * n + 11 }
}

// The amounts at the start and at the end of a cycle, of the first n states.
#[derive(Clone, Copy)]
pub struct PrintedCycle<'a> {
    pub tolerance: SteadyStateTolerance,
    pub n: usize,
    pub starts: &'a [f64],
    pub ends: &'a [f64],
    ghost held: { n ≤ length starts.now },
    ghost ended: { n ≤ length ends.now },
}

impl PrintedCycle<'_> {
    // Whether it closes, and by the residuals that its solution told.
    pub fn closes(&self, residuals: &[f64]) -> bool
        requires { self.now.n ≤ length residuals.now }
        ensures { result ≡ closesOf self.now.tolerance (take self.now.n self.now.starts.now) (take self.now.n self.now.ends.now)
            (take self.now.n residuals.now) }
    {
        self.starts[..self.n]
            .iter()
            .zip(&self.ends[..self.n])
            .zip(&residuals[..self.n])
            .all(|((start, end), residual)| state_closes(self.tolerance, *start, *end, *residual))
    }

    // The lines of all states.
    pub fn put_lines(&self, w: &mut Writer<'_>)
        requires { HasRoom (68 * self.now.n) w.old }
        ensures { Writes (cycle_lines self.now.tolerance (take self.now.n self.now.starts.now) (take self.now.n self.now.ends.now)) w.old w.new }
    {
        let starts = &self.starts[..self.n];
        let ends = &self.ends[..self.n];
        for (start, end) in starts.iter().zip(ends) {
            cycle_line(w, self.tolerance, *start, *end);
        }
    }

    fn write(&self, closed: bool, out: &mut [u8]) -> usize
        requires { lines_length self.now.n closed ≤ length out.old }
        ensures { Wrote (cycle_lines self.now.tolerance (take self.now.n self.now.starts.now) (take self.now.n self.now.ends.now)
            ++ verdict_line closed) 0 out.old result out.new }
    {
        let mut w = Writer { out, at: 0 };
        self.put_lines(&mut w);
        put_verdict(&mut w, closed);
        w.at
    }

    // The printout from the front; nothing is written where there is no room for it.
    pub fn print(&self, residuals: &[f64], out: &mut [u8]) -> PrintReply
        requires { (self.now.n ≤ length residuals.now) × (self.now.n ≤ states) }
        ensures { Prints (answer (lines_text (record {
          tolerance = self.now.tolerance;
          starts = take self.now.n self.now.starts.now;
          ends = take self.now.n self.now.ends.now;
          residuals = take self.now.n residuals.now;
        }))) out.old result out.new }
    {
        let closed = self.closes(residuals);
        if lines_length(self.n, closed) > out.len() {
            return reply_of(Ok(()), 0);
        }
        let length = self.write(closed, out);
        reply_of(Ok(()), length)
    }
}
