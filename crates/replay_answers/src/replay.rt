// The lines of standard input, of any length and in any number, and the loop over them.
ghost use Rattle.std.specs.Prelude.{◌≡◌, List, IfOk};
ghost use Rattle.std.specs.List.{FoldsTo};
ghost use Rattle.std.specs.Iterator.{IsFinite, Drains};
ghost use Rattle.std.specs.Fn.{FnReturnsAt};
ghost use Rattle.replay_answers.specs.Tally.{counts_of, no_counts, CameTo, Counted};

use crate::LineError;
use crate::entry_tally::EntryTally;
use crate::tally::Called;
use std::alloc::{AllocError, Global};
use std::fmt::Display;
use std::io;
use std::io::{BufRead, BufReader};

// What a line comes to; none where it is not in the layout.
fn called<E, F>(call: &F, line: &[u8]) -> Result<Option<Called<E>>, AllocError>
where
    F: Fn(&str) -> Result<Called<E>, LineError>,
    requires { F.IsAlwaysCallable call.now }
    ensures { IfOk result (λ called. CameTo (λ text r. FnReturnsAt F.Fn call.now text r) line.now called) }
{
    let called = match str::from_utf8(line) {
        Ok(text) => call(text),
        Err(_) => Err(LineError::Malformed),
    };
    match called {
        Ok(called) => Ok(Some(called)),
        Err(LineError::Malformed) => Ok(None),
        Err(LineError::OutOfMemory) => Err(AllocError),
    }
}

// What the calls of the lines came to, of each that does not start with '#'.
pub fn replay_lines<E, R, I, F>(rt: &R, lines: I, call: F) -> Result<EntryTally<E>, AllocError>
where
    E: Ord + Display + Drop,
    R: Print + AllocGlobal,
    I: Iterator<Item = Vec<u8>> + Drop,
    F: Fn(&str) -> Result<Called<E>, LineError> + Drop,
    requires call { F.IsAlwaysCallable call }
    requires can { I.can_next lines }
    requires ends { IsFinite (I.remaining lines) }
    ensures { IfOk result (λ tally. (read : List _) × Drains I.next_gives lines read
        × FoldsTo (λ a line b. Counted (λ text r. FnReturnsAt F.Fn call text r) a line.items b) no_counts read (counts_of tally)) }
{
    let mut tally = EntryTally::new(rt.alloc());
    for line in lines {
        if line.starts_with(b"#") {
            tally.skip();
        } else {
            tally.add(rt, called(&call, line.as_slice())?)?;
        }
    }
    Ok(tally)
}

// Replays the lines of standard input, and prints what the calls came to. A read that fails counts as the end, also one that has no memory for
// a line. No clause can say what standard input gives or what standard output takes; `replay_lines` says what the lines come to.
pub fn replay_main<E, R, F>(rt: &R, entry: F) -> io::Result<()>
where
    E: Ord + Display + Drop,
    R: Input + Print + AllocGlobal,
    F: Fn(Global, &str) -> Result<Called<E>, LineError> + Drop,
    requires { F.IsAlwaysCallable entry }
{
    let alloc = rt.alloc();
    let lines = BufReader::new(alloc, rt.reader())?
        .split(alloc, b'\n')
        .map_while(Result::ok);
    let tally = replay_lines(rt, lines, |line| entry(alloc, line))?;
    tally.print(rt);
    Ok(())
}
