// The blocks of a run: a row written into lent slices, the kernel's advance and the arrival at a boundary.
// By fixed memory: n, the count of a kernel's states, stands beside arrays of the most states, since there is no heap; n is the same all the way, and a state that held it would have to show at each step that it stays.
#![tactic(auto)]

ghost use Rattle.std.specs.Prelude.{◌≡◌, [], ◌∷◌, ◌++◌, ◌+◌, ◌*◌, ◌≤◌, ◌<◌, length, take, drop};
ghost use Rattle.limits.specs.Limits.{states};
ghost use Rattle.rows.specs.Written.{put, with_row_at, RoomForRows};
ghost use Rattle.rows.specs.Lent.{cells_of, SameSlices, row_of};
ghost use Rattle.binary64.specs.Doubles.{plus_zero};
ghost use Rattle.protocol.specs.Entry.{side_code, front_then_zeros};
ghost use Rattle.rows.specs.Onward.{with_amounts, stops_with, past_row, past_advance};
ghost use Rattle.rows.specs.Sides.{side_of};

mod legs;

use limits::STATES;
use linear_pk::LinearPk;
use refusal::Refusal;

// Where a run that goes on has come to: the amounts, what is left of the budget of advances, the advances made, and the rows written.
// Cells for the most states, of which a kernel uses the first n: memory is fixed, and n is the kernel's.
#[derive(Clone, Copy)]
pub struct Progress {
    pub amounts: [f64; STATES],
    pub left: u64,
    pub made: u64,
    pub rows: usize,
}

// A run that a refusal stopped: the time that is told, and where the run had come to.
#[derive(Clone, Copy)]
pub struct Stopped {
    pub refusal: Refusal,
    pub time: f64,
    pub at: Progress,
}

// A row at a boundary, ahead of the doses or behind them. A reading is a row behind.
#[derive(Clone, Copy)]
pub enum Side {
    Pre = 1,
    Post = 2,
}

impl From<Side> for u8 {
    ghost from_gives = { λ side code. code ≡ side_code (side_of side) };

    fn from(side: Side) -> u8 {
        side as u8
    }
}

impl Progress {
    pub fn with_amounts(self, amounts: [f64; STATES]) -> Progress
        ensures { result ≡ with_amounts self amounts }
    {
        Progress { amounts, ..self }
    }

    // Stopped here by a refusal, told at a time.
    pub fn stopped_by(self, refusal: Refusal, time: f64) -> Stopped
        ensures { result ≡ stops_with self refusal time }
    {
        Stopped {
            refusal,
            time,
            at: self,
        }
    }

    // Behind one more row, where their count can rise.
    fn past_row(self) -> Progress
        requires { self.rows < 18446744073709551615 }
        ensures { result ≡ past_row self }
    {
        Progress {
            rows: self.rows + 1,
            ..self
        }
    }

    // With one more advance made; a budget at 0 stays there.
    fn past_advance(self) -> Progress
        requires { self.made < 4294967296 }
        ensures { result ≡ past_advance self }
    {
        Progress {
            left: self.left.saturating_sub(1),
            made: self.made + 1,
            ..self
        }
    }
}

// The row writer: a row's amounts from the front of the part of the values that is lent to it.
// By name: 01 names the row writer, whose part has the cells of later rows too, which stay; `lay` leaves them as they are.
fn row_writer(amounts: &[f64], part: &mut [f64])
    requires { length amounts.now ≤ length part.old }
    ensures { part.new ≡ amounts.now ++ drop (length amounts.now) part.old }
{
    linear_pk_interval::lay(amounts, part);
}

// Cells for the rows of a run. What they hold is of no matter: a contract of their length alone keeps it out of proofs.
pub fn cells<T: Copy + Default, const N: usize>() -> [T; N]
    ensures { N ≡ length result }
{
    [T::default(); N]
}

// The value into the first cells.
// By loop: `fill` asks that a clone cannot fail, which `Copy` does not tell.
pub fn fill_front<T: Copy>(cells: &mut [T], count: usize, value: T)
    requires { count ≤ length cells.old }
    ensures { cells.new ≡ front_then_zeros value count [] cells.old }
{
    for cell in &mut cells[..count] {
        *cell = value;
    }
}

// The slices that the rows of a run are written into: times and sides, a cell a row, and values, n amounts from place row × n on.
#[derive(Drop)]
pub struct Rows<'a> {
    pub times: &'a mut [f64],
    pub sides: &'a mut [u8],
    pub values: &'a mut [f64],
}

impl Rows<'_> {
    // A row at t behind those written. Any byte may be its side.
    pub fn write_row(&mut self, n: usize, t: f64, side: u8, start: Progress) -> Progress
        requires { (n ≤ states) × RoomForRows n (start.rows + 1) (cells_of self.old) }
        ensures behind { result ≡ past_row start }
        ensures times_after { self.new.times.now ≡ put start.rows (t ∷ []) self.old.times.now }
        ensures sides_after { self.new.sides.now ≡ put start.rows (side ∷ []) self.old.sides.now }
        ensures values_after { self.new.values.now ≡ put (start.rows * n) (take n start.amounts) self.old.values.now }
        ensures slices { SameSlices self.old self.new }
    {
        let row = start.rows;
        self.times[row] = t;
        self.sides[row] = side;
        let at = row * n;
        let amounts = start.amounts;
        row_writer(&amounts[..n], &mut self.values[at..]);
        start.past_row()
    }

    // The same on a side of a boundary.
    pub fn write(&mut self, n: usize, t: f64, side: Side, start: Progress) -> Progress
        requires { (n ≤ states) × RoomForRows n (start.rows + 1) (cells_of self.old) }
        ensures behind { result ≡ past_row start }
        ensures row { cells_of self.new ≡ with_row_at n start.rows (row_of n t side start) (cells_of self.old) }
        ensures slices { SameSlices self.old self.new }
    {
        self.write_row(n, t, u8::from(side), start)
    }

    // Zeros over the first rows, of n amounts each.
    pub fn clear(&mut self, n: usize, rows: usize)
        requires { RoomForRows n rows (cells_of self.old) }
        ensures times_after { self.new.times.now ≡ front_then_zeros plus_zero rows [] self.old.times.now }
        ensures sides_after { self.new.sides.now ≡ front_then_zeros 0 rows [] self.old.sides.now }
        ensures values_after { self.new.values.now ≡ front_then_zeros plus_zero (rows * n) [] self.old.values.now }
        ensures slices { SameSlices self.old self.new }
    {
        fill_front(&mut self.times[..], rows, 0.0);
        fill_front(&mut self.sides[..], rows, 0);
        fill_front(&mut self.values[..], rows * n, 0.0);
    }
}

// A leg of a run: the kernel's n states, from the boundary t on at the summed rates.
#[derive(Clone, Copy)]
pub struct Leg {
    pub kernel: LinearPk,
    pub n: usize,
    pub t: f64,
    pub rates: [f64; STATES],
    ghost within: { n ≤ states },
}
