// The values that a kernel is made of, which pass, and amounts by volume.
// By fixed memory: the volumes are asked to be no more than the array of their concentrations holds, since there is no heap.
#![tactic(auto)]

ghost use Rattle.std.specs.Prelude.{◌≡◌, ◌≤◌, ◌<◌, ◌+◌, cond, ltb, length, take};
ghost use Rattle.limits.specs.Limits.{most_volumes};
ghost use Rattle.binary64.specs.Doubles.{plus_zero};
ghost use Rattle.linear_pk_mammillary.specs.Rates.{central};
ghost use Rattle.linear_pk_values.specs.Parameters.{parameters_pass};
ghost use Rattle.matrix.specs.Matrix.{tabulate};
ghost use Rattle.refusal.specs.Numbers.{reply_number};
ghost use Rattle.refusal.specs.Result.{number, slice_at_exit};
ghost use Rattle.linear_pk_values.specs.Concentrations.{concentration as concentrationOf, concentrations as concentrationsOf};

use limits::VOLUMES;
use refusal::Refusal;
use std::array;

// Whether the values pass, of 1 to 3 volumes and one exchange fewer.
pub fn values_pass(
    clearance: f64,
    volumes: &[f64],
    exchange: &[f64],
    absorption: Option<f64>,
) -> bool
    ensures { result ≡ parameters_pass clearance volumes.now exchange.now absorption }
{
    binary64::is_nonnegative(clearance)
        & (binary64::all_positive(volumes)
            & (binary64::all_nonnegative(exchange)
                & binary64::is_nonnegative(absorption.unwrap_or(0.0))))
}

// The concentration of compartment i: the depot is skipped.
// By parameters: the kernel, which holds the depot and the volumes, is a type of the crate above; a struct of them here would be made for one call.
fn concentration(depot: bool, volumes: &[f64], amounts: &[f64], i: usize) -> f64
    requires { (i < length volumes.now) × (i + central depot < length amounts.now) }
    ensures { result ≡ concentrationOf depot volumes.now amounts.now i }
{
    if depot {
        let at = i + 1;
        return amounts[at] / volumes[i];
    }
    amounts[i] / volumes[i]
}

// The concentrations of the compartments, from place 0.
fn concentration_list(depot: bool, volumes: &[f64], amounts: &[f64]) -> [f64; VOLUMES]
    requires { (length volumes.now ≤ most_volumes) × (length volumes.now + central depot ≤ length amounts.now) }
    ensures { take (length volumes.now) result ≡ tabulate (length volumes.now) (concentrationOf depot volumes.now amounts.now) }
{
    array::from_fn(
        |i|
            requires { length volumes.now + central depot ≤ length amounts.now }
            ensures { result ≡ cond (ltb i (length volumes.entry.now)) (concentrationOf depot volumes.entry.now amounts.entry.now i) plus_zero }
        {
            if i < volumes.len() {
                concentration(depot, volumes, amounts, i)
            } else {
                0.0
            }
        },
    )
}

// The concentrations of the compartments, one for each of their volumes, into the first cells of result.
pub fn concentrations(
    depot: bool,
    volumes: &[f64],
    amounts: &[f64],
    res: &mut [f64],
) -> Result<(), Refusal>
    requires { length volumes.now ≤ most_volumes }
    ensures result_value { reply_number result ≡ number (concentrationsOf (length volumes.now + central depot)
        (length volumes.now) depot volumes.now amounts.now (length res.old)) }
    ensures res_after { res.new ≡ slice_at_exit (concentrationsOf (length volumes.now + central depot)
        (length volumes.now) depot volumes.now amounts.now (length res.old)) res.old }
{
    let count = volumes.len();
    if !binary64::amounts_pass(count + linear_pk_mammillary::central(depot), amounts) {
        return Err(Refusal::Argument);
    }
    if res.len() < count {
        return Err(Refusal::ShortSlice);
    }
    let list = concentration_list(depot, volumes, amounts);
    let values = &list[..count];
    if !binary64::all_finite(values) {
        return Err(Refusal::ConcentrationNotFinite);
    }
    linear_pk_interval::lay(values, res);
    Ok(())
}
