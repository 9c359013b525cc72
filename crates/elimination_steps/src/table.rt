// Tables of cells, over the whole width.
// By table: one function of both would take the cell as a closure, and its contract would name what each call at i, j < states gives.
ghost use Rattle.std.specs.Prelude.{◌≡◌, ◌<◌};
ghost use Rattle.limits.specs.Limits.{states};
ghost use Rattle.matrix.specs.Matrix.{tabulate};
ghost use Rattle.cycle.specs.Elimination.{system_cell, reduced_cell};

use elimination_system::entries;
use limits::STATES;
use std::array;

// Identity minus the columns, of which the array has one in each row.
pub fn system(columns: &[[f64; STATES]; STATES]) -> [[f64; STATES]; STATES]
    ensures { result ≡ tabulate states (λ i. tabulate states (system_cell columns.now i)) }
{
    array::from_fn(
        |i|
            requires { i < states }
            ensures { result ≡ tabulate states (system_cell columns.entry.now i) }
        { array::from_fn(|j| entries::system_cell(columns, i, j)) },
    )
}

// The rows behind row k less their multiple of it, past column k.
pub fn reduced(a: &[[f64; STATES]; STATES], k: usize) -> [[f64; STATES]; STATES]
    ensures { result ≡ tabulate states (λ i. tabulate states (reduced_cell a.now k i)) }
{
    array::from_fn(
        |i|
            requires { i < states }
            ensures { result ≡ tabulate states (reduced_cell a.entry.now k i) }
        { array::from_fn(|j| entries::reduced_cell(a, k, i, j)) },
    )
}
