// How often each entry gave each reply, and how many answers differ. A write that fails is passed over.
ghost use Rattle.std.specs.Prelude.{◌≡◌, ℕ, ◌==◌, ◌&&◌};
ghost use Rattle.refusal.specs.Numbers.{reply_number};
ghost use Rattle.replay_answers.specs.Placed.{placed_counts_of, no_placed_counts, placed_skipped, placed_answered, replied};

use refusal::Refusal;
use std::fmt::Display;

// One above the largest reply.
const REPLIES: usize = 41;

// How many entries have a place.
const ENTRIES: usize = 4;

const COUNTS: usize = ENTRIES * REPLIES;

// An entry that a program calls: shown by its name, and its replies counted at a place from 0 to 3.
pub trait Placed: Display {
    ghost place_of: { Self → ℕ };

    fn place(&self) -> usize
        ensures { result ≡ place_of self.now };
}

// What a line's call came to: the entry, its outcome, whether the answer is the stored one.
#[derive(Clone, Copy)]
pub struct Called<E> {
    pub entry: E,
    pub outcome: Result<(), Refusal>,
    pub same: bool,
}

impl<E> Called<E> {
    // A line stores an outcome as its number; `same` says whether the rest of the answer is the stored one.
    pub fn new(entry: E, outcome: Result<(), Refusal>, stored: u64, same: bool) -> Self
        ensures entry { result.entry ≡ entry }
        ensures outcome { result.outcome ≡ outcome }
        ensures same { result.same ≡ (same && reply_number outcome == stored) }
    {
        Called {
            entry,
            outcome,
            same: same && refusal::number(outcome) == stored,
        }
    }
}

#[derive(Clone, Copy)]
pub struct Tally {
    pub counts: [u64; COUNTS],
    pub lines: u64,
    pub answers: u64,
    pub differ: u64,
}

impl Tally {
    pub fn new() -> Self
        ensures { placed_counts_of result ≡ no_placed_counts }
    {
        Tally {
            counts: [0; COUNTS],
            lines: 0,
            answers: 0,
            differ: 0,
        }
    }

    // With a reply of an entry; a place or a number past the last is not counted.
    #[tactic(auto, unfolding(crate::specs::Placed::replied))]
    fn replied(mut self, place: usize, number: u64) -> Self
        ensures counts { result.counts ≡ replied place number self.counts }
        ensures lines { result.lines ≡ self.lines }
        ensures answers { result.answers ≡ self.answers }
        ensures differ { result.differ ≡ self.differ }
    {
        if place < ENTRIES && number < REPLIES as u64 {
            let at = place * REPLIES + number as usize;
            self.counts[at] = self.counts[at].saturating_add(1);
        }
        self
    }

    // With a line that is a comment.
    pub fn skipped(mut self) -> Self
        ensures { placed_counts_of result ≡ placed_skipped (placed_counts_of self) }
    {
        self.lines = self.lines.saturating_add(1);
        self
    }

    // With a line and what its call came to, if the line is in the layout. A difference is shown.
    pub fn added<E: Placed + Drop>(self, rt: &impl Print, called: Option<Called<E>>) -> Self
        ensures { placed_counts_of result ≡ placed_answered E.place_of called (placed_counts_of self) }
    {
        let mut tally = self.skipped();
        tally.answers = tally.answers.saturating_add(1);
        let mut same = false;
        if let Some(called) = called {
            same = called.same;
            tally = tally.replied(called.entry.place(), refusal::number(called.outcome));
        }
        if !same {
            tally.differ = tally.differ.saturating_add(1);
            let lines = tally.lines;
            let _ = println!(rt; "line {lines} differs");
        }
        tally
    }

    // The counts of one entry, of the replies that were met.
    pub fn print_entry<E: Placed>(&self, rt: &impl Print, entry: &E) {
        if let Some(counts) = self.counts.chunks_exact(REPLIES).nth(entry.place()) {
            for (reply, count) in counts.iter().enumerate() {
                if *count != 0 {
                    let _ = println!(rt; "{entry} {reply}: {count}");
                }
            }
        }
    }

    pub fn print_total(&self, rt: &impl Print) {
        let answers = self.answers;
        let differ = self.differ;
        let _ = println!(rt; "{answers} answers, {differ} differ");
    }
}
