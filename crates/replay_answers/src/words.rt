// The numbers of a line, one space between two, and how they are read one behind the other.
ghost use Rattle.std.specs.Prelude.{◌≡◌, ℕ, ◌≤◌, ◌<◌, ◌*◌, ◌^◌, ◌∷◌, ◌++◌, [], IfOk, IfErr, IsOk, ◌↔◌, length, map, vec_len};
ghost use Rattle.std.specs.Float.{binary64};
ghost use Rattle.std.specs.Float.Ieee.{of_bits};
ghost use Rattle.replay_numbers.specs.Text.{number_of};
ghost use Rattle.replay_answers.specs.declared.error.LineError.TheVariants.{Malformed, OutOfMemory};
ghost use Rattle.replay_answers.specs.Outcomes.{Gives, GivesInMemory};
ghost use Rattle.replay_answers.specs.Words.{line_numbers, word_of, words_of, double_of, at_most as at_most_of, list_of, items_of, window_of};

use crate::LineError;
use protocol::Window;
use std::alloc::Global;

// By name: a word that spells no number is refused at one place.
pub fn number(word: &[u8]) -> Result<u64, LineError>
    ensures { Gives (λ n. n) result (number_of word.now) }
{
    replay_numbers::number(word).ok_or(LineError::Malformed)
}

// The numbers of a line, one space between two.
pub fn numbers(alloc: Global, line: &str) -> Result<Vec<u64>, LineError>
    ensures { GivesInMemory (λ list. list.items) result (line_numbers line.now) }
{
    let mut numbers = Vec::new(alloc);
    for word in line.split(' ') {
        numbers.push(number(word.as_bytes())?)?;
    }
    Ok(numbers)
}

// The numbers that are not read yet.
#[derive(Clone, Copy)]
pub struct Words<'a> {
    pub rest: &'a [u64],
}

impl<'a> Words<'a> {
    pub fn new(words: &'a [u64]) -> Self
        ensures { result.rest.now ≡ words.now }
    {
        Words { rest: words }
    }

    // Refuses words that are left.
    pub fn end(self) -> Result<(), LineError>
        ensures end { IsOk result ↔ self.entry.rest.now ≡ [] }
        ensures malformed { IfErr result (λ e. e ≡ Malformed) }
    {
        if self.rest.is_empty() {
            Ok(())
        } else {
            Err(LineError::Malformed)
        }
    }

    // By the library: the next of a slice is its `split_first`.
    #[tactic(auto, unfolding(crate::specs::Words::word_of))]
    pub fn word(&mut self) -> Result<u64, LineError>
        ensures taken { IfOk result (λ word. self.old.rest.now ≡ word ∷ self.new.rest.now) }
        ensures read { Gives (λ word. (word, self.new.rest.now)) result (word_of self.old.rest.now) }
    {
        let (word, rest) = self.rest.split_first().ok_or(LineError::Malformed)?;
        self.rest = rest;
        Ok(*word)
    }

    // The next `count` words.
    #[tactic(auto, using(crate::proofs::Exits::err_from_is_err_and), unfolding(crate::specs::Words::words_of, crate::specs::Words::then))]
    pub fn words(&mut self, count: usize) -> Result<&'a [u64], LineError>
        ensures count { IfOk result (λ words. length words.now ≡ count) }
        ensures taken { IfOk result (λ words. self.old.rest.now ≡ words.now ++ self.new.rest.now) }
        ensures read { Gives (λ words. (words.now, self.new.rest.now)) result (words_of count self.old.rest.now) }
    {
        let (words, left) = self
            .rest
            .split_at_checked(count)
            .ok_or(LineError::Malformed)?;
        self.rest = left;
        Ok(words)
    }

    #[tactic(auto, using(crate::proofs::Exits::err_from_is_err_and), unfolding(crate::specs::Words::double_of, crate::specs::Words::then))]
    pub fn double(&mut self) -> Result<f64, LineError>
        ensures taken { IfOk result (λ x. (word : ℕ) × (self.old.rest.now ≡ word ∷ self.new.rest.now) × (x ≡ of_bits binary64 word)) }
        ensures read { Gives (λ x. (x, self.new.rest.now)) result (double_of self.old.rest.now) }
    {
        Ok(binary64_bits::of_bits(self.word()?))
    }

    // A number that is at most `most`.
    #[tactic(auto, using(crate::proofs::Exits::err_from_is_err_and), unfolding(crate::specs::Words::at_most, crate::specs::Words::then))]
    pub fn at_most(&mut self, most: usize) -> Result<usize, LineError>
        ensures bound { IfOk result (λ n. n ≤ most) }
        ensures read { Gives (λ n. (n, self.new.rest.now)) result (at_most_of most self.old.rest.now) }
    {
        let n = self.word()? as usize;
        if n <= most {
            Ok(n)
        } else {
            Err(LineError::Malformed)
        }
    }

    // A list with room for `room` words: its count, its words, and places that mean nothing.
    #[tactic(auto, using(crate::proofs::Exits::err_from_is_err_and), unfolding(crate::specs::Words::list_of, crate::specs::Words::then))]
    pub fn list(&mut self, room: usize) -> Result<&'a [u64], LineError>
        ensures bound { IfOk result (λ list. length list.now ≤ room) }
        ensures read { Gives (λ list. (list.now, self.new.rest.now)) result (list_of room self.old.rest.now) }
    {
        let count = self.at_most(room)?;
        let list = self.words(count)?;
        self.words(room - count)?;
        Ok(list)
    }

    // A list without spare places: its count, at most `most`, and `size` words for each.
    #[tactic(auto, using(crate::proofs::Exits::err_from_is_err_and), unfolding(crate::specs::Words::items_of, crate::specs::Words::then))]
    pub fn items(&mut self, most: usize, size: usize) -> Result<&'a [u64], LineError>
        ensures bound { IfOk result (λ items. length items.now ≤ most * size) }
        ensures read { Gives (λ items. (items.now, self.new.rest.now)) result (items_of most size self.old.rest.now) }
    {
        let count = self.at_most(most)?;
        self.words(count.saturating_mul(size))
    }

    // Start, end, tolerances, budgets.
    #[tactic(auto, using(crate::proofs::Exits::err_from_is_err_and), unfolding(crate::specs::Words::window_of, crate::specs::Words::then))]
    pub fn window(&mut self) -> Result<Window, LineError>
        ensures { Gives (λ window. (window, self.new.rest.now)) result (window_of self.old.rest.now) }
    {
        Ok(Window {
            start: self.double()?,
            end: self.double()?,
            rtol: self.double()?,
            atol: self.double()?,
            propagations: self.word()?,
            events: self.word()? as usize,
            outputs: self.word()? as usize,
        })
    }
}

// The doubles of patterns.
pub fn doubles(alloc: Global, patterns: &[u64]) -> Result<Vec<f64>, LineError>
    ensures items { IfOk result (λ list. list.items ≡ map (of_bits binary64) patterns.now) }
    ensures len { IfOk result (λ list. vec_len list ≡ length patterns.now) }
    ensures memory { IfErr result (λ e. e ≡ OutOfMemory) }
{
    let list = patterns
        .iter()
        .map(|bits| binary64_bits::of_bits(*bits))
        .collect(alloc)?;
    Ok(list)
}
