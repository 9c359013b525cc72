// A program over a sheet: how it reads, and what of its printout is written.
#![tactic(auto)]

ghost use Rattle.std.specs.Prelude.{◌≡◌, ◌≤◌, ◌+◌, ℕ, List, OnOk, length, take};
ghost use Rattle.std.specs.Io.KnownBytes.{Consumes, Appends};
ghost use Rattle.limits.specs.Limits.{sheet_bytes};

use limits::SHEET_BYTES;
use std::io::{self, Read, Write};

// A program over a sheet, and room for its printout of any.
pub trait Program<const ROOM: usize> {
    ghost text: { List ℕ → List ℕ };

    // The program's name.
    // By name: it has no contract, as it stands in the message of a failed write alone, and no clause tells what standard error is given.
    fn name() -> &'static str;

    // The printout of the sheet, from the front of out; how long it is.
    fn print(sheet: &[u8], out: &mut [u8; ROOM]) -> usize
        ensures { (result ≤ ROOM) × (take result out.new ≡ text sheet.now) };
}

// Reads until `bytes` is full, the input ends or a read fails; how many bytes stand at the start of `bytes`.
pub fn read_full<R: Read>(input: &mut R, bytes: &mut [u8]) -> usize
    ensures within { result ≤ length bytes.new }
    ensures taken { Consumes (R.remaining input.old) (R.remaining input.new) (take result bytes.new) }
{
    let mut done = 0;
    // By hand: after a failed read `read_exact` does not say how many bytes it had read.
    while done < bytes.len() {
        let Ok(n) = input.read(&mut bytes[done..]) else {
            return done;
        };
        if n == 0 {
            return done;
        }
        done += n;
    }
    done
}

// Writes the sheet's printout.
pub fn write_printout<P: Program<ROOM>, const ROOM: usize, W: Write>(
    sheet: &[u8],
    text: &mut [u8; ROOM],
    out: &mut W,
) -> io::Result<()>
    ensures { OnOk result (Appends (W.contents out.old) (W.contents out.new) (P.text sheet.now)) }
{
    let length = P::print(sheet, text);
    out.write_all(&text[..length])
}

// Room for a sheet and one byte more: a longer file is as unfit as this much of it.
fn input() -> [u8; SHEET_BYTES + 1]
    ensures { sheet_bytes + 1 ≡ length result }
{
    [0; SHEET_BYTES + 1]
}

// Reads a sheet on standard input to its end, and writes its printout on standard output; it is printed into lent cells.
// By channels: no clause over `rt` tells what its channels hold; what is read and written is promised by `read_full` and `write_printout`.
pub fn run<P: Program<ROOM>, const ROOM: usize>(rt: &HostRuntime, text: &mut [u8; ROOM]) {
    let mut bytes = input();
    let n = read_full(&mut rt.stdin(), &mut bytes);
    let written = write_printout::<P, ROOM, _>(&bytes[..n], text, &mut rt.stdout());
    if written.is_err() {
        let name = P::name();
        let _ = eprintln!(rt; "{name}: standard output cannot be written");
    }
}
