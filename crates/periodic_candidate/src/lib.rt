// The candidate of a closed cycle, from the runs and elimination.
// By fixed memory: without a heap n states stand in arrays of the most; n comes from `PreparedCycle`, and elimination needs no more of it.
#![tactic(auto)]

ghost use Rattle.std.specs.Prelude.{◌≡◌, ◌≤◌, take};
ghost use Rattle.limits.specs.Limits.{states};
ghost use Rattle.refusal.specs.Numbers.{outcome_with};
ghost use Rattle.simulation.specs.KernelRun.{propagator_of};
ghost use Rattle.cycle.specs.Elimination.{system_of, solve as solveOf};
ghost use Rattle.cycle.specs.Closed.{solution as solutionOf};
ghost use Rattle.periodic_runs.specs.Ends.{timed_with};
ghost use Rattle.periodic_runs.specs.Columns.{columns_of};

use limits::STATES;
use periodic_runs::{PreparedCycle, Stop};
use refusal::Refusal;

// Elimination on identity minus the columns, with 33.
fn eliminated(
    n: usize,
    columns: &[[f64; STATES]; STATES],
    offset: [f64; STATES],
) -> Result<[f64; STATES], Refusal>
    requires { n ≤ states }
    ensures { outcome_with (take n) result ≡ solveOf n (system_of n (columns_of n columns.now n) (take n offset)) }
{
    elimination::solve(n, elimination::system(n, columns), offset)
}

// The run from zero, then from each unit amount; elimination.
pub fn solution(cycle: &PreparedCycle) -> Result<[f64; STATES], Stop>
    ensures { timed_with (take cycle.now.n) result
        ≡ solutionOf (propagator_of cycle.now.kernel) cycle.now.n cycle.now.window cycle.now.events.now }
{
    let offset = cycle.last_of([0.0; STATES])?;
    let columns = periodic_runs::columns(cycle.kernel, cycle.n, cycle.window, cycle.events)?;
    Ok(eliminated(cycle.n, &columns, offset)?)
}
