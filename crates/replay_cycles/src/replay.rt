// One line: a fold of the library, and the answer that it must give.
use arrayvec::ArrayVec;
use limits::EVENT_SIZE;
use protocol::Window;
use replay_answers::{
    Called, KeptParameters, LineError, NoCall, Placed, Words, kept_doubles, kept_numbers,
};
use std::fmt;

// The most volumes, exchanges, events, samples and pieces of a line.
const VOLUMES: usize = 3;

const EXCHANGES: usize = 2;

const EVENTS: usize = 6;

const SAMPLES: usize = 5;

const PIECES: usize = 18;

// Words that are lent to a fold, above all that a line's pieces need, and what each holds before it.
const CELLS: usize = 120;

const CELL: u64 = 99;

#[derive(Clone, Copy)]
pub struct Fold;

impl Placed for Fold {
    ghost place_of = { λ _. 0 };

    fn place(&self) -> usize {
        0
    }
}

impl fmt::Display for Fold {
    fn fmt<W: fmt::Write>(&self, f: &mut fmt::Formatter<W>) -> fmt::Result {
        f.write_str("normalize_periodic_cycle")
    }
}

// The arguments of a fold; an event is its words.
#[derive(Drop)]
struct Cycle<'a> {
    parameters: KeptParameters<VOLUMES, EXCHANGES>,
    window: Window,
    events: &'a [u64],
    samples: ArrayVec<f64, SAMPLES>,
}

impl<'a> Cycle<'a> {
    fn read(words: &mut Words<'a>) -> Result<Self, LineError> {
        Ok(Cycle {
            parameters: KeptParameters::read(words)?,
            window: words.window()?,
            events: words.items(EVENTS, EVENT_SIZE)?,
            samples: kept_doubles(words.items(SAMPLES, 1)?),
        })
    }
}

pub fn replay(line: &[u8]) -> Result<Called<Fold>, NoCall> {
    let numbers = kept_numbers(line)?;
    let mut words = Words::new(numbers.as_slice());
    let cycle = Cycle::read(&mut words)?;
    let stored = words.word()?;
    let pieces = words.items(PIECES, EVENT_SIZE)?;
    words.end()?;
    let mut cells = [CELL; CELLS];
    let folded = capi_fold::fold_words(
        cycle.parameters.made().unwrap_or_default(),
        cycle.window,
        cycle.events,
        cycle.samples.as_slice(),
        &mut cells,
    );
    // The words behind the pieces stay as they were.
    let count = folded.unwrap_or(0);
    let same = count == pieces.len() / EVENT_SIZE
        && cells.starts_with(pieces)
        && cells.iter().skip(pieces.len()).all(|cell| *cell == CELL);
    Ok(Called::new(Fold, folded.map(|_| ()), stored, same))
}
