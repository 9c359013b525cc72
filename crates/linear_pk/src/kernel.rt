// The kernel: a matrix of rates, the volumes, and whether there is a depot.
ghost use Rattle.std.specs.Prelude.{◌≡◌, ◌+◌, ◌≤◌, length};
ghost use Rattle.limits.specs.Limits.{states, most_volumes};
ghost use Rattle.linear_pk.specs.LinearPk.{state_count, volumes_pass, matrix_finite, sound, kernel_of, no_kernel, new as newOf};
ghost use Rattle.refusal.specs.Numbers.{result_of, outcome_of};

use limits::{RATE_CELLS, VOLUMES};
use refusal::Refusal;

// States are the depot, if there is one, central, then the peripherals. The rate from state j to state i stands at place STATES·i + j.
#[derive(Clone, Copy)]
pub struct LinearPk {
    pub compartments: usize,
    pub depot: bool,
    pub volumes: [f64; VOLUMES],
    // By the C interface: the rates stand row by row in one array, as in the cells of a kernel, which are read and written in one pass.
    pub matrix: [f64; RATE_CELLS],
}

// The kernel of no volumes: zeros.
impl Default for LinearPk {
    fn default() -> LinearPk
        ensures { result ≡ no_kernel }
    {
        let volumes = [0.0f64; VOLUMES];
        let matrix = [0.0f64; RATE_CELLS];
        LinearPk {
            compartments: 0,
            depot: false,
            volumes,
            matrix,
        }
    }
}

impl LinearPk {
    // How many states there are; 0 where there are not 1 to 3 volumes.
    pub fn state_count(self) -> usize
        ensures { (result ≡ state_count self) × (result ≤ states) }
    {
        let count = self.compartments;
        if count == 0 {
            return 0;
        }
        if count > VOLUMES {
            return 0;
        }
        if self.depot { count + 1 } else { count }
    }
}

fn matrix_finite(kernel: LinearPk) -> bool
    ensures { result ≡ matrix_finite kernel }
{
    let matrix = kernel.matrix;
    linear_pk_mammillary::matrix_finite(matrix, kernel.state_count())
}

// Whether there are 1 to 3 volumes, each finite and above 0.
fn volumes_pass(kernel: LinearPk) -> bool
    ensures { result ≡ volumes_pass kernel }
{
    if kernel.state_count() == 0 {
        return false;
    }
    binary64::all_positive(&kernel.volumes[..kernel.compartments])
}

// A kernel's own test: 1 by its volumes, 2 by a rate that is not finite.
pub fn check(kernel: LinearPk) -> Result<(), Refusal>
    ensures { result_of result kernel ≡ sound kernel }
{
    if !volumes_pass(kernel) {
        return Err(Refusal::Parameters);
    }
    if !matrix_finite(kernel) {
        return Err(Refusal::RateNotFinite);
    }
    Ok(())
}

// The kernel of parameters whose counts fit.
// By parameters: `new` is given them one by one, tests them, and calls this once; a struct that keeps their counts would be made for that call alone.
fn kernel_of(clearance: f64, volumes: &[f64], exchange: &[f64], absorption: Option<f64>) -> LinearPk
    requires { (length exchange.now + 1 ≡ length volumes.now) × (length volumes.now ≤ most_volumes) }
    ensures { result ≡ kernel_of clearance volumes.now exchange.now absorption }
{
    let list = linear_pk_mammillary::padded(volumes);
    let matrix = linear_pk_mammillary::matrix(clearance, volumes, exchange, absorption);
    LinearPk {
        compartments: volumes.len(),
        depot: absorption.is_some(),
        volumes: list,
        matrix,
    }
}

impl LinearPk {
    // The kernel of a clearance, 1 to 3 volumes with central first, one exchange clearance for each further volume, and the absorption.
    pub fn new(
        clearance: f64,
        volumes: &[f64],
        exchange: &[f64],
        absorption: Option<f64>,
    ) -> Result<LinearPk, Refusal>
        ensures { outcome_of result ≡ newOf clearance volumes.now exchange.now absorption }
    {
        let count = volumes.len();
        if count == 0 {
            return Err(Refusal::Parameters);
        }
        if count > VOLUMES {
            return Err(Refusal::Parameters);
        }
        if exchange.len() != count - 1 {
            return Err(Refusal::Parameters);
        }
        if !linear_pk_values::values_pass(clearance, volumes, exchange, absorption) {
            return Err(Refusal::Parameters);
        }
        let kernel = kernel_of(clearance, volumes, exchange, absorption);
        if matrix_finite(kernel) {
            Ok(kernel)
        } else {
            Err(Refusal::RateNotFinite)
        }
    }
}
