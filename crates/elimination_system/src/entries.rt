// The entries of a system: of the array that has it, of the system of a cycle, and of a system with one column reduced.
// By index: i < states and j < states are the bounds of the array's own two indices; an index type would be unwrapped at each of them.
ghost use Rattle.std.specs.Prelude.{◌≡◌, ◌<◌};
ghost use Rattle.limits.specs.Limits.{states};
ghost use Rattle.matrix.specs.Matrix.{at as at_of};
ghost use Rattle.cycle.specs.Elimination.{system_cell, factor as factorOf, reduced_cell, reduced_right};

use limits::STATES;

// The entry at row i, column j.
pub fn at(a: &[[f64; STATES]; STATES], i: usize, j: usize) -> f64
    requires { (i < states) × (j < states) }
    ensures { result ≡ at_of a.now i j }
{
    a[i][j]
}

// a(i,k)/a(k,k)
pub fn factor(a: &[[f64; STATES]; STATES], k: usize, i: usize) -> f64
    requires { (k < states) × (i < states) }
    ensures { result ≡ factorOf a.now k i }
{
    at(a, i, k) / at(a, k, k)
}

pub fn system_cell(columns: &[[f64; STATES]; STATES], i: usize, j: usize) -> f64
    requires { (i < states) × (j < states) }
    ensures { result ≡ system_cell columns.now i j }
{
    if i == j {
        1.0 - at(columns, j, i)
    } else {
        -at(columns, j, i)
    }
}

pub fn reduced_cell(a: &[[f64; STATES]; STATES], k: usize, i: usize, j: usize) -> f64
    requires { (i < states) × (j < states) }
    ensures { result ≡ reduced_cell a.now k i j }
{
    if i <= k {
        return at(a, i, j);
    }
    if j <= k {
        return at(a, i, j);
    }
    at(a, i, j) - factor(a, k, i) * at(a, k, j)
}

// Entry i less its row's multiple of entry k, where i is behind k.
pub fn reduced_entry(a: &[[f64; STATES]; STATES], right: [f64; STATES], k: usize, i: usize) -> f64
    requires { i < states }
    ensures { result ≡ reduced_right (record { matrix = a.now; right = right }) k i }
{
    if i <= k {
        return right[i];
    }
    right[i] - factor(a, k, i) * right[k]
}
