// The slices that are lent to a run.
use replay_numbers::same;

// Rows of the lent slices, above all that a line's run needs, and their amounts.
const ROWS: usize = 40;

const AMOUNTS: usize = 160;

// What the cells hold before the run: the pattern of 100.5, and a side that there is not.
const REAL: u64 = 0x4059_2000_0000_0000;

const SIDE: u8 = 99;

#[derive(Clone, Copy)]
pub struct Lent {
    pub times: [f64; ROWS],
    pub sides: [u8; ROWS],
    pub values: [f64; AMOUNTS],
}

impl Lent {
    pub fn new() -> Self {
        let real = binary64_bits::of_bits(REAL);
        Lent {
            times: [real; ROWS],
            sides: [SIDE; ROWS],
            values: [real; AMOUNTS],
        }
    }
}

// What the slices must hold after the run: `rows` has the words of those reached, each with time, side and n amounts; `reckoned` rows are written.
#[derive(Clone, Copy)]
pub struct Expected<'a> {
    pub rows: &'a [u64],
    pub n: usize,
    pub reckoned: usize,
}

impl<'a> Expected<'a> {
    // A word of a row: 0 in a row that was not reached, and in one that was not reckoned what stood there.
    fn word(&self, row: usize, place: usize, before: u64) -> u64 {
        if row >= self.reckoned {
            return before;
        }
        let width = self.n.saturating_add(2);
        let at = row.saturating_mul(width).saturating_add(place);
        self.rows.get(at).copied().unwrap_or(0)
    }

    // An amount's word, by its place in the slice of all.
    fn amount(&self, at: usize) -> u64 {
        if self.n == 0 {
            REAL
        } else {
            self.word(at / self.n, (at % self.n).saturating_add(2), REAL)
        }
    }

    // Whether the slices hold these rows, and behind them what they held before.
    // By number: a line stores a side so.
    pub fn is_in(&self, lent: &Lent) -> bool {
        let mut times = lent.times.iter().enumerate();
        let mut sides = lent.sides.iter().enumerate();
        let mut values = lent.values.iter().enumerate();
        times.all(|(i, time)| same(*time, self.word(i, 0, REAL)))
            && sides.all(|(i, side)| u64::from(*side) == self.word(i, 1, u64::from(SIDE)))
            && values.all(|(i, value)| same(*value, self.amount(i)))
    }
}
