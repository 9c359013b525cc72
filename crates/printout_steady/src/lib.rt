// The bytes of a closed cycle's printout, into lent cells.
#![tactic(auto)]

ghost use Rattle.std.specs.Prelude.{◌*◌, ◌≤◌, length, take};
ghost use Rattle.limits.specs.Limits.{states};
ghost use Rattle.printout_numbers.specs.Writer.{HasRoom, Writes};
ghost use Rattle.printout.specs.Cells.{Wrote};
ghost use Rattle.printout_steady.specs.SteadyPrintout.{state_line, state_lines, solved_text, solved_of, solved_length};
ghost use Rattle.periodic_acceptance.specs.Entry.{steady_reply};
ghost use Rattle.printout.specs.Replies.{Prints, answer};
ghost use Rattle.printout_steady.specs.SteadyReplies.{steady_printout_of};

use periodic_acceptance::Stop;
use printout::{PrintReply, reply_of};
use printout_lines::put_named;
use printout_numbers::Writer;

// Amount and residual of a state.
#[tactic(auto, using(printout_numbers::proofs::Counts::double_length))]
fn state_line(w: &mut Writer<'_>, amount: f64, residual: f64)
    requires { HasRoom 34 w.old }
    ensures { Writes (state_line amount residual) w.old w.new }
{
    w.put_bits(amount);
    w.put_text(b" ");
    w.put_bits(residual);
    w.put_text(b"\n");
}

// The amounts of a closed cycle and their residuals, of the first n states.
#[derive(Clone, Copy)]
pub struct PrintedStates<'a> {
    pub n: usize,
    pub amounts: &'a [f64],
    pub residual: &'a [f64],
    ghost held: { n ≤ length amounts.now },
    ghost told: { n ≤ length residual.now },
}

// The lines of all states.
fn put_states(w: &mut Writer<'_>, solved: &PrintedStates<'_>)
    requires { HasRoom (34 * solved.now.n) w.old }
    ensures { Writes (state_lines (take solved.now.n solved.now.amounts.now) (take solved.now.n solved.now.residual.now)) w.old w.new }
{
    let amounts = &solved.amounts[..solved.n];
    let residual = &solved.residual[..solved.n];
    for (amount, rest) in amounts.iter().zip(residual) {
        state_line(w, *amount, *rest);
    }
}

// The text of a cycle that is not refused.
fn write_solved(solved: &PrintedStates<'_>, maximum: f64, out: &mut [u8]) -> usize
    requires { solved_length solved.now.n ≤ length out.old }
    ensures { Wrote (solved_text (solved_of solved.now.n maximum solved.now.amounts.now solved.now.residual.now)) 0 out.old result out.new }
{
    let mut w = Writer { out, at: 0 };
    put_states(&mut w, solved);
    put_named(&mut w, b"max ", maximum);
    w.at
}

// The printout of a cycle that is not refused, from the front; nothing is written where there is no room for it.
pub fn print_solved(solved: &PrintedStates<'_>, maximum: f64, out: &mut [u8]) -> PrintReply
    requires { solved.now.n ≤ states }
    ensures { Prints (answer (solved_text (solved_of solved.now.n maximum solved.now.amounts.now solved.now.residual.now))) out.old result
        out.new }
{
    if 34 * solved.n + 21 > out.len() {
        return reply_of(Ok(()), 0);
    }
    let length = write_solved(solved, maximum, out);
    reply_of(Ok(()), length)
}

// The printout of a reply and of the states that it solves.
pub fn print_reply(
    reply: Result<f64, Stop>,
    solved: &PrintedStates<'_>,
    out: &mut [u8],
) -> PrintReply
    requires { solved.now.n ≤ states }
    ensures { Prints (steady_printout_of (steady_reply reply) solved.now.n solved.now.amounts.now solved.now.residual.now) out.old result out.new }
{
    match reply {
        Err(stop) => printout::print_refused(stop.refusal, stop.time, out),
        Ok(maximum) => print_solved(solved, maximum, out),
    }
}
