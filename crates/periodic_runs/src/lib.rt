// The inner runs of a closed cycle, from amounts at the start to those of the last post row, and the columns of the unit amounts.
#![tactic(auto)]

ghost use Rattle.std.specs.Prelude.{◌≡◌, ◌≤◌, ◌+◌, ◌*◌, length, take};
ghost use Rattle.limits.specs.Limits.{states, cycle_values};
ghost use Rattle.binary64.specs.Doubles.{plus_zero};
ghost use Rattle.simulation.specs.KernelRun.{propagator_of};
ghost use Rattle.cycle.specs.Closed.{last_of, homogeneous as homogeneousOf, columns_to};
ghost use Rattle.periodic_runs.specs.Ends.{Runs, timed_with};
ghost use Rattle.periodic_runs.specs.Columns.{columns_of};

use limits::{CYCLE_ROWS, CYCLE_VALUES, STATES};
use linear_pk::LinearPk;
use protocol::{Event, EventList, Window};
use refusal::Refusal;
use rows::{Rows, Stopped};

// A list of few events has few cells for the rows of its run, since every run clears all of its own.
const FEW_EVENTS: usize = 16;

const FEW_ROWS: usize = 4 * FEW_EVENTS + 2;

const FEW_VALUES: usize = FEW_ROWS * STATES;

// A refusal, and the time at which it stops a closed cycle.
#[derive(Clone, Copy, Debug, PartialEq)]
pub struct Stop {
    pub refusal: Refusal,
    pub time: f64,
}

// The time is +0 unless a run is stopped.
impl From<Refusal> for Stop {
    ghost from_gives = { λ r s. s ≡ record { refusal = r; time = plus_zero } };

    fn from(refusal: Refusal) -> Stop {
        Stop { refusal, time: 0.0 }
    }
}

impl From<Stopped> for Stop {
    ghost from_gives = { λ z s. s ≡ record { refusal = z.refusal; time = z.time } };

    fn from(stopped: Stopped) -> Stop {
        Stop {
            refusal: stopped.refusal,
            time: stopped.time,
        }
    }
}

// A list that the preparation passes on the divided budgets, for the n states of a kernel.
#[derive(Clone, Copy)]
pub struct PreparedCycle<'a> {
    pub kernel: LinearPk,
    pub n: usize,
    pub window: Window,
    pub events: &'a [Event],
    ghost runs: { Runs kernel n window events.now },
}

impl PreparedCycle<'_> {
    // The run from the first n amounts, on the divided budgets, to the last post row.
    pub fn last_of(&self, initial: [f64; STATES]) -> Result<[f64; STATES], Stop>
        ensures { timed_with (take self.now.n) result
            ≡ last_of (propagator_of self.now.kernel) self.now.n self.now.window self.now.events.now (take self.now.n initial) }
    {
        if self.events.len() <= FEW_EVENTS {
            self.last_in::<FEW_ROWS, FEW_VALUES>(initial)
        } else {
            self.last_in::<CYCLE_ROWS, CYCLE_VALUES>(initial)
        }
    }

    // The same, with this many cells for its rows. A call of its own, so that the rows lie in one place.
    #[inline(never)]
    fn last_in<const ROWS: usize, const VALUES: usize>(
        &self,
        initial: [f64; STATES],
    ) -> Result<[f64; STATES], Stop>
        requires { (4 * length self.now.events.now + 2 ≤ ROWS) × (ROWS * states ≤ VALUES) × (VALUES ≤ cycle_values) }
        ensures { timed_with (take self.now.n) result
            ≡ last_of (propagator_of self.now.kernel) self.now.n self.now.window self.now.events.now (take self.now.n initial) }
    {
        let mut times = [0.0f64; ROWS];
        let mut sides = [0u8; ROWS];
        let mut values = [0.0f64; VALUES];
        let mut rows = Rows {
            times: &mut times,
            sides: &mut sides,
            values: &mut values,
        };
        let end = simulation_matrix::on_schedule(
            self.kernel,
            self.n,
            initial,
            periodic_inputs::divided(self.n, self.window),
            self.events,
            &[],
            &mut rows,
        )?;
        Ok(end.amounts)
    }
}

// The runs of the zeroed list from each unit amount in turn: column j in row j.
// By fixed memory: the columns are the first n of an array of the most states, without a heap.
pub fn columns(
    kernel: LinearPk,
    n: usize,
    window: Window,
    events: &[Event],
) -> Result<[[f64; STATES]; STATES], Stop>
    requires { Runs kernel n window (homogeneousOf events.now) }
    ensures { timed_with (λ cs. columns_of n cs n) result ≡ columns_to (propagator_of kernel) n window events.now n }
{
    let mut zeroed = EventList::new();
    periodic_inputs::homogeneous(events, &mut zeroed);
    let unit_runs = PreparedCycle {
        kernel,
        n,
        window,
        events: &zeroed,
    };
    let mut columns = [[0.0f64; STATES]; STATES];
    for (j, column) in columns[..n].iter_mut().enumerate() {
        *column = unit_runs.last_of(periodic_inputs::unit(j))?;
    }
    Ok(columns)
}
