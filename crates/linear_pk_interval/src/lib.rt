// Amounts after an interval with constant input rates, of n states and the rates between them.
// By the C interface: amounts and rates come as two arrays of a C program, so as slices of one length, which is at most the most states.
#![tactic(auto)]

ghost use Rattle.std.specs.Prelude.{◌≡◌, ◌≤◌, ◌+◌, ◌++◌, length, drop};
ghost use Rattle.limits.specs.Limits.{states};
ghost use Rattle.matrix.specs.Arrays.{lead};
ghost use Rattle.matrix.specs.Exponential.{scheme};
ghost use Rattle.refusal.specs.Numbers.{reply_number};
ghost use Rattle.refusal.specs.Result.{number, slice_at_exit};
ghost use Rattle.linear_pk_interval.specs.Interval.{propagated, interval as intervalOf};

use limits::{BLOCK, RATE_CELLS};
use refusal::Refusal;

// The values from the front of out; the cells behind them stay.
// By C: `copy_from_slice` becomes a call of `memmove`; the archive asks the C library for `memcpy` and `memset` alone.
pub fn lay(values: &[f64], out: &mut [f64])
    requires { length values.now ≤ length out.old }
    ensures { out.new ≡ values.now ++ drop (length values.now) out.old }
{
    for i in 0..values.len() {
        out[i] = values[i];
    }
}

// The amounts after p, into result.
fn apply(
    p: &[[f64; BLOCK]; BLOCK],
    amounts: &[f64],
    rates: &[f64],
    duration: f64,
    res: &mut [f64],
) -> Result<(), Refusal>
    requires { (length amounts.now ≤ states) × (length rates.now ≡ length amounts.now) × (length amounts.now ≤ length res.old) }
    ensures result_value { reply_number result ≡ number (propagated (length amounts.now)
        (lead (length amounts.now + length amounts.now) p.now) amounts.now rates.now duration) }
    ensures res_after { res.new ≡ slice_at_exit (propagated (length amounts.now)
        (lead (length amounts.now + length amounts.now) p.now) amounts.now rates.now duration) res.old }
{
    if !linear_pk_propagator::inputs_finite(rates, duration) {
        return Err(Refusal::AmountNotFinite);
    }
    let list = linear_pk_propagator::amounts_after(p, amounts, rates, duration);
    let after = &list[..amounts.len()];
    if !binary64::all_nonnegative(after) {
        return Err(Refusal::AmountNotFinite);
    }
    lay(after, res);
    Ok(())
}

// The amounts, one for each state, after a duration at constant input rates, into the first cells of result.
pub fn interval(
    matrix: [f64; RATE_CELLS],
    amounts: &[f64],
    rates: &[f64],
    duration: f64,
    res: &mut [f64],
) -> Result<(), Refusal>
    requires { (length amounts.now ≤ states) × (length rates.now ≡ length amounts.now) × (length amounts.now ≤ length res.old) }
    ensures result_value { reply_number result ≡ number (intervalOf scheme (length amounts.now) matrix amounts.now rates.now duration) }
    ensures res_after { res.new ≡ slice_at_exit (intervalOf scheme (length amounts.now) matrix amounts.now
        rates.now duration) res.old }
{
    if duration == 0.0 {
        lay(amounts, res);
        return Ok(());
    }
    let made = linear_pk_propagator::propagator(matrix, amounts.len(), duration)?;
    apply(&made.matrix, amounts, rates, duration, res)
}
