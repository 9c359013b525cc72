// The closed cycle of a list that was folded and prepared: the candidate, its acceptance, the answers written.
#![tactic(auto)]

ghost use Rattle.std.specs.Prelude.{◌&&◌, leb, length};
ghost use Rattle.simulation.specs.KernelRun.{propagator_of};
ghost use Rattle.cycle.specs.Closed.{then, unless_fails, solution, accepted};
ghost use Rattle.periodic_acceptance.specs.Entry.{steady_reply};
ghost use Rattle.periodic_acceptance.specs.Replies.{SteadyAnswer};

use cycle::SteadyStateTolerance;
use periodic_runs::{PreparedCycle, Stop};
use refusal::Refusal;

// The closed cycle of a list that was folded and prepared: 4, the candidate, its acceptance. Nothing is written ahead of the last refusal.
pub fn execute_prepared_periodic_steady_state(
    cycle: &PreparedCycle,
    tolerance: SteadyStateTolerance,
    amounts: &mut [f64],
    residual: &mut [f64],
) -> Result<f64, Stop>
    ensures { SteadyAnswer (then (unless_fails (leb cycle.now.n (length amounts.old) && leb cycle.now.n (length residual.old)) 4
        cycle.now.events.now)
        (λ fs. then (solution (propagator_of cycle.now.kernel) cycle.now.n cycle.now.window fs)
        (accepted (propagator_of cycle.now.kernel) cycle.now.n cycle.now.window tolerance fs)))
        (steady_reply result) amounts.old residual.old amounts.new residual.new }
{
    let n = cycle.n;
    if amounts.len() < n {
        return Err(Stop::from(Refusal::ShortSlice));
    }
    if residual.len() < n {
        return Err(Stop::from(Refusal::ShortSlice));
    }
    let candidate = periodic_candidate::solution(cycle)?;
    let acceptance = periodic_acceptance::accepted(cycle, tolerance, candidate)?;
    amounts[..n].copy_from_slice(&candidate[..n]);
    residual[..n].copy_from_slice(&acceptance.residuals[..n]);
    Ok(acceptance.maximum)
}
