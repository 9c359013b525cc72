// One line: a run of the library, and the answer that it must give.
ghost use Rattle.std.specs.Prelude.{◌≡◌, ◌+◌, ◌*◌, ◌/◌, ◌≤◌, length};
ghost use Rattle.arrayvec.specs.ArrayVec.{array_vec_len};

use crate::cells::{Expected, Lent};
use arrayvec::ArrayVec;
use limits::EVENT_SIZE;
use protocol::Window;
use refusal::Refusal;
use replay_answers::{
    Called, KeptParameters, LineError, NoCall, Placed, Words, kept_doubles, kept_numbers,
};
use replay_numbers::same;
use simulation_report::{Reached, Report, RunError};
use std::fmt;

// The most volumes, exchanges, amounts, events and samples of a line.
const VOLUMES: usize = 3;

const EXCHANGES: usize = 2;

const AMOUNTS: usize = 4;

const EVENTS: usize = 6;

const SAMPLES: usize = 5;

#[derive(Clone, Copy)]
pub struct Simulate;

impl Placed for Simulate {
    ghost place_of = { λ _. 0 };

    fn place(&self) -> usize {
        0
    }
}

impl fmt::Display for Simulate {
    fn fmt<W: fmt::Write>(&self, f: &mut fmt::Formatter<W>) -> fmt::Result {
        f.write_str("simulate")
    }
}

// The arguments of a run; an event is its words.
#[derive(Drop)]
struct Run<'a> {
    parameters: KeptParameters<VOLUMES, EXCHANGES>,
    amounts: ArrayVec<f64, AMOUNTS>,
    window: Window,
    events: &'a [u64],
    samples: ArrayVec<f64, SAMPLES>,
    ghost events_within: { length events.now ≤ 36 },
    ghost samples_within: { array_vec_len samples ≤ 5 },
}

impl<'a> Run<'a> {
    fn read(words: &mut Words<'a>) -> Result<Self, LineError> {
        Ok(Run {
            parameters: KeptParameters::read(words)?,
            amounts: kept_doubles(words.list(AMOUNTS)?),
            window: words.window()?,
            events: words.items(EVENTS, EVENT_SIZE)?,
            samples: kept_doubles(words.items(SAMPLES, 1)?),
        })
    }

    fn events(&self) -> usize
        ensures count { result ≡ length self.now.events.now / 6 }
        ensures within { result ≤ 6 }
    {
        self.events.len() / EVENT_SIZE
    }

    // The rows that the slices must have room for.
    fn reckoned(&self) -> usize
        ensures count { result ≡ 4 * (length self.now.events.now / 6) + array_vec_len self.now.samples + 2 }
        ensures within { result ≤ 31 }
    {
        4 * self.events() + self.samples.len() + 2
    }

    fn simulated(&self, lent: &mut Lent) -> Result<Reached, RunError> {
        if !events_layout::events_fit(self.events) {
            return Err(RunError::Refused(Refusal::Layout));
        }
        let list = events_layout::events_of(self.events);
        simulation::simulate(
            self.parameters.made().unwrap_or_default(),
            self.amounts.as_slice(),
            self.window,
            list.as_slice(),
            self.samples.as_slice(),
            &mut lent.times,
            &mut lent.sides,
            &mut lent.values,
        )
    }
}

// The refusal that ended a run, if one did.
fn outcome_of(reply: Result<Reached, RunError>) -> Result<(), Refusal> {
    match reply {
        Ok(_) => Ok(()),
        Err(RunError::Refused(refusal) | RunError::Stopped { refusal, .. }) => Err(refusal),
    }
}

// The answer that a line stores; a row is its words.
#[derive(Clone, Copy)]
struct Stored<'a> {
    // By number: a line stores an outcome so.
    number: u64,
    time: u64,
    count: usize,
    advances: u64,
    rows: &'a [u64],
}

impl<'a> Stored<'a> {
    // With at most so many rows, of so many words each.
    fn read(words: &mut Words<'a>, most: usize, width: usize) -> Result<Self, LineError> {
        let number = words.word()?;
        let time = words.word()?;
        let count = words.at_most(most)?;
        let advances = words.word()?;
        let rows = words.words(count.saturating_mul(width))?;
        Ok(Stored {
            number,
            time,
            count,
            advances,
            rows,
        })
    }

    // Whether the report is the stored one, but for the outcome's number.
    fn is_report(&self, report: Report) -> bool {
        same(report.time, self.time)
            && report.rows == self.count
            && report.advances == self.advances
    }
}

pub fn replay(line: &[u8]) -> Result<Called<Simulate>, NoCall> {
    let numbers = kept_numbers(line)?;
    let mut words = Words::new(numbers.as_slice());
    let run = Run::read(&mut words)?;
    let n = run.parameters.state_count();
    let stored = Stored::read(&mut words, run.reckoned(), 2 + n)?;
    words.end()?;
    let mut lent = Lent::new();
    let reply = run.simulated(&mut lent);
    // A run that a test ahead of it refused leaves every cell.
    let reckoned = match reply {
        Err(RunError::Refused(_)) => 0,
        Err(RunError::Stopped { .. }) | Ok(_) => run.reckoned(),
    };
    let expected = Expected {
        rows: stored.rows,
        n,
        reckoned,
    };
    let same = stored.is_report(Report::from(reply)) && expected.is_in(&lent);
    Ok(Called::new(Simulate, outcome_of(reply), stored.number, same))
}
