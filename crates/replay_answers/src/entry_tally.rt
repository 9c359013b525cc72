// How often each entry gave each outcome, of entries in any number, and how many answers differ. A write that fails is passed over.
ghost use Rattle.std.specs.Prelude.{◌≡◌, OnOk};
ghost use Rattle.replay_answers.specs.Tally.{counts_of, no_counts, skipped, answered};

use crate::tally::Called;
use refusal::Refusal;
use std::alloc::{AllocError, Global};
use std::collections::BTreeMap;
use std::fmt::Display;

#[derive(Drop)]
pub struct EntryTally<E: Ord> {
    counts: BTreeMap<(E, Result<(), Refusal>), u64>,
    pub lines: u64,
    pub answers: u64,
    pub differ: u64,
}

impl<E: Ord + Display + Drop> EntryTally<E> {
    pub(crate) fn new(alloc: Global) -> Self
        ensures { counts_of result ≡ no_counts }
    {
        EntryTally {
            counts: BTreeMap::new(alloc),
            lines: 0,
            answers: 0,
            differ: 0,
        }
    }

    // With a line that is a comment.
    pub(crate) fn skip(&mut self)
        ensures { counts_of self.new ≡ skipped (counts_of self.old) }
    {
        self.lines = self.lines.saturating_add(1);
    }

    // With a line and what its call came to, if the line is in the layout. A difference is shown.
    pub(crate) fn add(
        &mut self,
        rt: &impl Print,
        called: Option<Called<E>>,
    ) -> Result<(), AllocError>
        ensures { OnOk result (counts_of self.new ≡ answered called (counts_of self.old)) }
    {
        self.lines = self.lines.saturating_add(1);
        self.answers = self.answers.saturating_add(1);
        let mut same = false;
        if let Some(called) = called {
            same = called.same;
            let key = (called.entry, called.outcome);
            let count = self.counts.entry(key)?.or_insert(0);
            *count = count.saturating_add(1);
        }
        if !same {
            self.differ = self.differ.saturating_add(1);
            let lines = self.lines;
            let _ = println!(rt; "line {lines} differs");
        }
        Ok(())
    }

    pub(crate) fn print(&self, rt: &impl Print) {
        for ((entry, outcome), count) in &self.counts {
            let number = refusal::number(*outcome);
            let _ = println!(rt; "{entry} {number}: {count}");
        }
        let answers = self.answers;
        let differ = self.differ;
        let _ = println!(rt; "{answers} answers, {differ} differ");
    }
}
