// The residuals of a closed cycle: end minus start, and the greatest scaled one.
// By fixed memory: without a heap n states stand in arrays of the most; a type that keeps n ≤ states would be unwrapped at each slice.
#![tactic(auto)]

ghost use Rattle.std.specs.Prelude.{◌≡◌, ◌≤◌, ℕ, take};
ghost use Rattle.limits.specs.Limits.{states};
ghost use Rattle.refusal.specs.Numbers.{outcome_of};
ghost use Rattle.cycle.specs.Closed.{untimed, scale_of, judged as judgedOf, checked_maximum_to, residuals_of};

use cycle::SteadyStateTolerance;
use limits::STATES;
use refusal::Refusal;
use std::array;

// absolute + relative·max(|start|, |end|)
// By the call: the tolerance holds for all states, start and end are those of one, and nothing else needs the three together.
#[tactic(auto, unfolding(cycle::specs::Closed::scale_of))]
pub fn scale(tolerance: SteadyStateTolerance, start: f64, end: f64) -> f64
    ensures { result ≡ scale_of tolerance start end }
{
    tolerance.absolute
        + tolerance.relative * binary64_order::max(binary64::abs(start), binary64::abs(end))
}

// One state more: 35 for its scale, 36 for its scaled residual, or the greater of that and the greatest so far.
fn judged(
    tolerance: SteadyStateTolerance,
    start: f64,
    end: f64,
    maximum: f64,
) -> Result<f64, Refusal>
    ensures { untimed (outcome_of result) ≡ judgedOf tolerance start end maximum }
{
    let divisor = scale(tolerance, start, end);
    if !binary64::is_finite(divisor) {
        return Err(Refusal::Scale);
    }
    let scaled = binary64::abs(end - start) / divisor;
    if !(binary64::is_finite(scaled) & !(1.0 < scaled)) {
        return Err(Refusal::Residual);
    }
    Ok(binary64_order::max(maximum, scaled))
}

// The greatest scaled residual, or the refusal of the first state that has one.
pub fn maximum(
    n: usize,
    tolerance: SteadyStateTolerance,
    start: [f64; STATES],
    end: [f64; STATES],
) -> Result<f64, Refusal>
    requires { n ≤ states }
    ensures { untimed (outcome_of result) ≡ checked_maximum_to tolerance (take n start) (take n end) n }
{
    let mut maximum = 0.0f64;
    for (&from, &to) in start[..n].iter().zip(&end[..n]) {
        maximum = judged(tolerance, from, to, maximum)?;
    }
    Ok(maximum)
}

// End minus start, of each state.
pub fn residuals(start: [f64; STATES], end: [f64; STATES]) -> [f64; STATES]
    ensures { (n : ℕ) → n ≤ states → take n result ≡ residuals_of n (take n start) (take n end) }
{
    array::from_fn(|i| end[i] - start[i])
}
