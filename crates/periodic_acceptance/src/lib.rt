// The acceptance of a closed cycle's candidate, by its own run.
// By fixed memory: n states stand in arrays of the most, without a heap; n comes from `PreparedCycle`, and `judged` needs no more of it.
#![tactic(auto)]

ghost use Rattle.std.specs.Prelude.{◌≡◌, ◌≤◌, take};
ghost use Rattle.limits.specs.Limits.{states};
ghost use Rattle.refusal.specs.Numbers.{outcome_with};
ghost use Rattle.simulation.specs.KernelRun.{propagator_of};
ghost use Rattle.cycle.specs.Closed.{untimed, got, then, checked_maximum_to, residuals_of, accepted as acceptedOf};
ghost use Rattle.periodic_runs.specs.Ends.{timed_with};
ghost use Rattle.periodic_acceptance.specs.Acceptance.{state_of};

use cycle::SteadyStateTolerance;
use limits::STATES;
use periodic_runs::PreparedCycle;
pub use periodic_runs::Stop;
use refusal::Refusal;

// An accepted candidate's residuals and the greatest scaled one.
#[derive(Clone, Copy)]
pub struct Acceptance {
    pub residuals: [f64; STATES],
    pub maximum: f64,
}

// The residuals of the candidate's own run, which ends with these amounts.
fn judged(
    n: usize,
    tolerance: SteadyStateTolerance,
    candidate: [f64; STATES],
    end: [f64; STATES],
) -> Result<Acceptance, Refusal>
    requires { n ≤ states }
    ensures { untimed (outcome_with (state_of n candidate) result)
        ≡ then (checked_maximum_to tolerance (take n candidate) (take n end) n)
        (λ m. got (record { amounts = take n candidate; residuals = residuals_of n (take n candidate) (take n end); maximum = m })) }
{
    let maximum = periodic_residual::maximum(n, tolerance, candidate, end)?;
    Ok(Acceptance {
        residuals: periodic_residual::residuals(candidate, end),
        maximum,
    })
}

// 34; the candidate's own run; state by state 35 and 36.
pub fn accepted(
    cycle: &PreparedCycle,
    tolerance: SteadyStateTolerance,
    candidate: [f64; STATES],
) -> Result<Acceptance, Stop>
    ensures { timed_with (state_of cycle.now.n candidate) result ≡ acceptedOf (propagator_of cycle.now.kernel) cycle.now.n
        cycle.now.window tolerance cycle.now.events.now (take cycle.now.n candidate) }
{
    if !binary64::all_nonnegative(&candidate[..cycle.n]) {
        return Err(Stop::from(Refusal::Candidate));
    }
    let end = cycle.last_of(candidate)?;
    Ok(judged(cycle.n, tolerance, candidate, end)?)
}
