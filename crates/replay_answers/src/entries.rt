// The lines of standard input, as many as its room holds, and the loop over them, for entries that have places; with no heap.
ghost use Rattle.std.specs.Prelude.{◌≡◌, List, length};
ghost use Rattle.std.specs.List.{FoldsTo};
ghost use Rattle.std.specs.Iterator.{IsFinite, Drains};
ghost use Rattle.std.specs.Fn.{FnReturnsAt};
ghost use Rattle.replay_answers.specs.Tally.{is_comment as is_comment_of};
ghost use Rattle.replay_answers.specs.Placed.{placed_counts_of, no_placed_counts, PlacedCounted};

use crate::NoCall;
use crate::tally::{Called, Placed, Tally};

const INPUT: usize = 262144;

// Room for standard input. Input that fills it is cut, so that answers are missing.
pub fn room() -> [u8; INPUT]
    ensures { 262144 ≡ length result }
{
    [0; INPUT]
}

// A line that starts with '#'.
pub fn is_comment(line: &[u8]) -> bool
    ensures { result ≡ is_comment_of line.now }
{
    line.starts_with(b"#")
}

// What the calls of the lines came to, of each that does not start with '#'.
// By closure: that it may be called at any line is told of it alone, and no type holds that.
pub fn tally_lines<'a, E, R, I, F>(rt: &R, lines: I, call: F) -> Tally
where
    E: Placed + Drop,
    R: Print,
    I: Iterator<Item = &'a [u8]> + Drop,
    F: Fn(&[u8]) -> Result<Called<E>, NoCall> + Drop,
    requires call { F.IsAlwaysCallable call }
    requires can { I.can_next lines }
    requires ends { IsFinite (I.remaining lines) }
    ensures { (read : List _) × Drains I.next_gives lines read
        × FoldsTo (λ a line b. PlacedCounted E.place_of (λ text r. FnReturnsAt F.Fn call text r) a line.now b) no_placed_counts read (placed_counts_of result) }
{
    let mut tally = Tally::new();
    for line in lines {
        tally = if is_comment(line) {
            tally.skipped()
        } else {
            tally.added(rt, call(line).ok())
        };
    }
    tally
}

// Replays the lines of standard input, and prints what the calls came to, entry by entry. A read that fails counts as the end. No clause can
// say what standard input gives or what standard output takes; `tally_lines` says what the lines come to.
pub fn replay_entries<E, R, F>(rt: &R, entries: &[E], call: F)
where
    E: Placed + Drop,
    R: Input + Print,
    F: Fn(&[u8]) -> Result<Called<E>, NoCall> + Drop,
    requires { F.IsAlwaysCallable call }
{
    let mut input = room();
    let n = rig_streams::read_full(&mut rt.reader(), &mut input);
    // No line stands behind a last line feed.
    let lines = input[..n]
        .split_inclusive(|byte| *byte == b'\n')
        .map(|line| line.strip_suffix(b"\n").unwrap_or(line));
    let tally = tally_lines(rt, lines, call);
    for entry in entries {
        tally.print_entry(rt, entry);
    }
    tally.print_total(rt);
}
