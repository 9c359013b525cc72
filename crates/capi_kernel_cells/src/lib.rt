// A kernel and a bound kernel as cells, doubles in a slice: read and written.
#![tactic(auto)]

ghost use Rattle.std.specs.Prelude.{◌≡◌, ◌≤◌, ◌+◌, ◌<◌, length};
ghost use Rattle.limits.specs.Limits.{most_volumes, rate_cells, kernel_cells, bound_cells};
ghost use Rattle.matrix.specs.Matrix.{tabulate, cell};
ghost use Rattle.capi_kernel_cells.specs.Reading.{first_rate, absorption_of, count_at, kernel_at};
ghost use Rattle.capi_kernel_cells.specs.Writing.{count_cell, kernel_cell, bound_cell};

use limits::{BOUND_CELLS, KERNEL_CELLS, RATE_CELLS, VOLUMES};
use linear_pk::{BoundLinearPk, LinearPk};
use std::array;

// The rates stand behind the volume count, the depot and the volumes.
const FIRST_RATE: usize = 2 + VOLUMES;

// By the C interface: a flag and a number stand for an option.
pub fn absorption_of(depot: bool, absorption: f64) -> Option<f64>
    ensures { result ≡ absorption_of depot absorption }
{
    depot.then_some(absorption)
}

// The number of volumes that a double is; 0 where it is none.
fn count_at(x: f64) -> usize
    ensures { result ≡ count_at x }
{
    (1..VOLUMES as u32 + 1)
        .rev()
        .find(|k| x == *k as f64)
        .unwrap_or(0) as usize
}

// As many cells from a place on as the array has.
fn cells_from<const N: usize>(cells: &[f64], from: usize) -> [f64; N]
    requires { from + N ≤ length cells.now }
    ensures { result ≡ tabulate N (λ i. cell cells.now (i + from)) }
{
    array::from_fn(|i| cells[i + from])
}

// The kernel that cells hold.
// By number: cells that hold none are a kernel of no volumes, with 0 states, which each other entry refuses by its own test.
#[tactic(auto, unfolding(crate::specs::Reading::kernel_at))]
pub fn kernel_at(cells: &[f64]) -> LinearPk
    ensures { result ≡ kernel_at cells.now }
{
    if cells.len() < KERNEL_CELLS {
        return LinearPk::default();
    }
    let depot = cells[1];
    if !((depot == 0.0) | (depot == 1.0)) {
        return LinearPk::default();
    }
    let compartments = count_at(cells[0]);
    let volumes = cells_from(cells, 2);
    let matrix = cells_from(cells, FIRST_RATE);
    LinearPk {
        compartments,
        depot: depot == 1.0,
        volumes,
        matrix,
    }
}

fn count_cell(n: usize) -> f64
    ensures { result ≡ count_cell n }
{
    if n <= VOLUMES { (n as u32) as f64 } else { 0.0 }
}

#[tactic(auto, unfolding(crate::specs::Writing::kernel_cell))]
fn kernel_cell(kernel: LinearPk, i: usize) -> f64
    requires { i < kernel_cells }
    ensures { result ≡ kernel_cell kernel i }
{
    if i == 0 {
        return count_cell(kernel.compartments);
    }
    if i == 1 {
        if kernel.depot {
            return 1.0;
        }
        return 0.0;
    }
    if i < FIRST_RATE {
        let v = i - 2;
        return kernel.volumes[v];
    }
    let c = i - FIRST_RATE;
    kernel.matrix[c]
}

pub fn kernel_cells(kernel: LinearPk) -> [f64; KERNEL_CELLS]
    ensures { result ≡ tabulate kernel_cells (kernel_cell kernel) }
{
    array::from_fn(|i| kernel_cell(kernel, i))
}

#[tactic(auto, unfolding(crate::specs::Writing::bound_cell))]
fn bound_cell(bound: BoundLinearPk, i: usize) -> f64
    requires { i < bound_cells }
    ensures { result ≡ bound_cell bound i }
{
    if i < KERNEL_CELLS {
        let kernel = bound.kernel;
        return kernel_cell(kernel, i);
    }
    let at = i - KERNEL_CELLS;
    bound.initial[at]
}

pub fn bound_cells(bound: BoundLinearPk) -> [f64; BOUND_CELLS]
    ensures { result ≡ tabulate bound_cells (bound_cell bound) }
{
    array::from_fn(|i| bound_cell(bound, i))
}
