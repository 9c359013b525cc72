// One line: a call of the library, and the answer that it must give.
ghost use Rattle.std.specs.Prelude.{◌≡◌, ◌≤◌};
ghost use Rattle.replay_linear_pk.specs.Places.{place_of};
ghost use Rattle.arrayvec.specs.ArrayVec.{array_vec_len};
ghost use Rattle.replay_linear_pk.specs.Rates.{rates_of as rates_in};

use arrayvec::ArrayVec;
use limits::STATES;
use linear_pk::LinearPk;
use refusal::Refusal;
use replay_answers::{
    Called, KeptParameters, LineError, NoCall, Placed, Words, kept_doubles, kept_numbers,
};
use replay_numbers::all_same;
use std::fmt;

// The longest lists of volumes and exchanges, of amounts and rates, and of a stored answer's cells.
const VOLUMES: usize = 4;

const AMOUNTS: usize = 5;

const CELLS: usize = 11;

type Cells = ArrayVec<f64, CELLS>;

// What a lent result holds before the call.
const PREFILLED: [f64; 6] = [100.0, 101.0, 102.0, 103.0, 104.0, 105.0];

#[derive(Clone, Copy)]
pub enum Entry {
    New = 1,
    Advance = 2,
    Concentrations = 3,
}

impl Placed for Entry {
    ghost place_of = { place_of };

    fn place(&self) -> usize {
        *self as usize
    }
}

impl TryFrom<u64> for Entry {
    type Error = LineError;

    // By number: a line has the number of its entry.
    fn try_from(number: u64) -> Result<Self, LineError> {
        match number {
            1 => Ok(Entry::New),
            2 => Ok(Entry::Advance),
            3 => Ok(Entry::Concentrations),
            _ => Err(LineError::Malformed),
        }
    }
}

impl fmt::Display for Entry {
    fn fmt<W: fmt::Write>(&self, f: &mut fmt::Formatter<W>) -> fmt::Result {
        f.write_str(match self {
            Entry::New => "new",
            Entry::Advance => "advance",
            Entry::Concentrations => "concentrations",
        })
    }
}

// The arguments of a call; `cells` is the length of the lent result.
#[derive(Drop)]
struct Arguments {
    parameters: KeptParameters<VOLUMES, VOLUMES>,
    amounts: ArrayVec<f64, AMOUNTS>,
    rates: ArrayVec<f64, AMOUNTS>,
    duration: f64,
    cells: usize,
}

impl Arguments {
    fn read(words: &mut Words<'_>) -> Result<Self, LineError> {
        Ok(Arguments {
            parameters: KeptParameters::read(words)?,
            amounts: kept_doubles(words.list(AMOUNTS)?),
            rates: kept_doubles(words.list(AMOUNTS)?),
            duration: words.double()?,
            cells: words.at_most(PREFILLED.len())?,
        })
    }

    // The reply, and the rates or the lent result.
    fn called(&self, entry: Entry) -> (Result<(), Refusal>, Cells)
        ensures { array_vec_len result.1 ≤ 11 }
    {
        let made = self.parameters.made();
        let kernel = made.unwrap_or_default();
        let mut cells = prefilled(self.cells);
        let reply = match entry {
            Entry::New => {
                cells = rates_of(kernel);
                made.map(|_| ())
            }
            Entry::Advance => kernel.advance(
                self.amounts.as_slice(),
                self.rates.as_slice(),
                self.duration,
                cells.as_mut_slice(),
            ),
            Entry::Concentrations => {
                kernel.concentrations(self.amounts.as_slice(), cells.as_mut_slice())
            }
        };
        (reply, cells)
    }
}

// A lent result of so many cells, as it is before the call.
fn prefilled(count: usize) -> Cells
    ensures { array_vec_len result ≤ 11 }
{
    let mut cells = Cells::new();
    let count = count.min(PREFILLED.len());
    cells.try_extend_from_slice(&PREFILLED[..count]).unwrap();
    cells
}

// The n by n rates of a kernel, row by row, as many as a line keeps.
fn rates_of(kernel: LinearPk) -> Cells
    ensures rates { result.items ≡ rates_in kernel }
    ensures within { array_vec_len result ≤ 11 }
{
    let n = kernel.state_count();
    let rates = kernel
        .matrix
        .iter()
        .enumerate()
        .filter(|(place, _)| *place / STATES < n && *place % STATES < n)
        .map(|(_, rate)| *rate)
        .take(CELLS);
    let mut cells = Cells::new();
    for rate in rates {
        cells.push(rate);
    }
    cells
}

pub fn replay(line: &[u8]) -> Result<Called<Entry>, NoCall> {
    let numbers = kept_numbers(line)?;
    let mut words = Words::new(numbers.as_slice());
    let entry = Entry::try_from(words.word()?)?;
    let arguments = Arguments::read(&mut words)?;
    let stored = words.word()?;
    let patterns = words.list(CELLS)?;
    words.end()?;
    let (reply, cells) = arguments.called(entry);
    let same = all_same(cells.as_slice(), patterns);
    Ok(Called::new(entry, reply, stored, same))
}
