// The bytes of a run's printout, into lent cells, and its reply; the printout of a refusal.
#![tactic(auto)]

ghost use Rattle.std.specs.Prelude.{◌≡◌, ◌≤◌, length, eqb};
ghost use Rattle.limits.specs.Limits.{states, most_rows};
ghost use Rattle.printout.specs.Printout.{rows_text, refused_text};
ghost use Rattle.printout.specs.Cells.{Wrote, printed, printed_length};
ghost use Rattle.refusal.specs.Numbers.{refusal_number, reply_number};
ghost use Rattle.printout.specs.Printouts.{number_or_short};
ghost use Rattle.printout.specs.Replies.{Prints, refusal as refusal_of, refused_at, answer};

use printout_lines::{put_head, put_named, put_refused, refused_length, run_length};
use printout_numbers::Writer;
use printout_rows::PrintedRows;
use refusal::Refusal;

// Whether the printout is an answer, and how many bytes it has, 0 where the output is too short; an answer without room is 4.
// By length: it is no value of `Ok`, since the text of a refusal has bytes too.
#[derive(Clone, Copy)]
pub struct PrintReply {
    pub reply: Result<(), Refusal>,
    pub length: usize,
}

// A text has bytes: none of them stands for no room. A refusal keeps its number without it.
pub fn reply_of(reply: Result<(), Refusal>, length: usize) -> PrintReply
    ensures { (reply_number result.reply ≡ number_or_short (reply_number reply) (eqb length 0)) × (result.length ≡ length) }
{
    if reply.is_ok() & (length == 0) {
        return PrintReply {
            reply: Err(Refusal::ShortSlice),
            length,
        };
    }
    PrintReply { reply, length }
}

// The text of a run that is not refused.
fn write_run(rows: &PrintedRows<'_>, ordered: f64, out: &mut [u8]) -> usize
    requires { length (rows_text rows.now.rows rows.now.n ordered rows.now.times.now rows.now.sides.now rows.now.values.now) ≤ length out.old }
    ensures { Wrote (rows_text rows.now.rows rows.now.n ordered rows.now.times.now rows.now.sides.now rows.now.values.now) 0 out.old result
        out.new }
{
    let mut w = Writer { out, at: 0 };
    put_head(&mut w, rows.rows);
    rows.put(&mut w);
    put_named(&mut w, b"ordered ", ordered);
    w.at
}

// The printout of a run that is not refused, from the front; nothing is written where there is no room for it.
// By limit: the length of the text asks for both, and `PrintedRows::put`, which asks for neither, would with fields for them.
// By text: what has room is written in four functions; one over a closure would ask of it the text, its length and what it writes.
pub fn print_run(rows: &PrintedRows<'_>, ordered: f64, out: &mut [u8]) -> PrintReply
    requires { (rows.now.n ≤ states) × (rows.now.rows ≤ most_rows) }
    ensures { Prints (answer (rows_text rows.now.rows rows.now.n ordered rows.now.times.now rows.now.sides.now rows.now.values.now)) out.old
        result out.new }
{
    if run_length(rows.rows, rows.n, rows.sides) > out.len() {
        return reply_of(Ok(()), 0);
    }
    let length = write_run(rows, ordered, out);
    reply_of(Ok(()), length)
}

fn write_refused(number: u64, time: f64, out: &mut [u8]) -> usize
    requires { length (refused_text number time) ≤ length out.old }
    ensures { Wrote (refused_text number time) 0 out.old result out.new }
{
    let mut w = Writer { out, at: 0 };
    put_refused(&mut w, number, time);
    w.at
}

// How many bytes the text of any number and its time has, which then stands in front; 0 where there is no room for it, and the cells are as they were.
// By length: `PrintReply` has a refusal, where this takes any number.
pub fn print_number(number: u64, time: f64, out: &mut [u8]) -> usize
    ensures value { result ≡ printed_length (refused_text number time) out.old }
    ensures out_after { out.new ≡ printed (refused_text number time) out.old }
{
    if refused_length(number) > out.len() {
        return 0;
    }
    write_refused(number, time, out)
}

// The printout of a refusal and its time.
pub fn print_refused(refusal: Refusal, time: f64, out: &mut [u8]) -> PrintReply
    ensures { Prints (refused_at (refusal_number refusal) time) out.old result out.new }
{
    let length = print_number(u64::from(refusal), time, out);
    reply_of(Err(refusal), length)
}

// A refusal ahead of the run.
pub fn print_refusal(refusal: Refusal, out: &mut [u8]) -> PrintReply
    ensures { Prints (refusal_of (refusal_number refusal)) out.old result out.new }
{
    print_refused(refusal, 0.0, out)
}
