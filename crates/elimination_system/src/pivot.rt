// The pivot of a column: the least magnitude that it may have, its row, and its test.
ghost use Rattle.std.specs.Prelude.{◌≡◌, cond, ◌≤◌, ◌<◌};
ghost use Rattle.limits.specs.Limits.{states};
ghost use Rattle.binary64.specs.Doubles.{magnitude, total_le};
ghost use Rattle.matrix.specs.Matrix.{at as at_of};
ghost use Rattle.matrix.specs.Arrays.{lead};
ghost use Rattle.cycle.specs.Elimination.{least_pivot, pivot_of, pivot_passes};

use crate::System;
use crate::entries::at;
use limits::STATES;

// The row of the larger magnitude in column k, i where they are equal.
fn larger(a: &[[f64; STATES]; STATES], k: usize, p: usize, i: usize) -> usize
    requires { (k < states) × (p < states) × (i < states) }
    ensures { result ≡ cond (total_le (magnitude (at_of a.now p k)) (magnitude (at_of a.now i k))) i p }
{
    if binary64_order::total_le(binary64::abs(at(a, p, k)), binary64::abs(at(a, i, k))) {
        i
    } else {
        p
    }
}

impl System {
    // 64 times the distance from 1 to the next double, times the norm or 1.
    pub fn least_pivot(&self) -> f64
        ensures { result ≡ least_pivot self.now.n (lead self.now.n self.now.matrix) }
    {
        64.0 * f64::EPSILON * binary64_order::max(exponential_norm::norm(&self.matrix, self.n), 1.0)
    }

    // The row of the largest magnitude in column k among the rows k .. n - 1, the last among equals.
    pub fn pivot_row(&self, k: usize) -> usize
        requires { k < self.now.n }
        ensures { (result ≡ pivot_of self.now.n (lead self.now.n self.now.matrix) k) × (result < self.now.n) }
    {
        (k + 1..self.n).fold(
            k,
            |p, i|
                requires { (k < states) × (p < states) × (i < states) }
            { larger(&self.matrix, k, p, i) },
        )
    }
}

// Whether a pivot is finite and above the least.
pub fn passes(least: f64, x: f64) -> bool
    ensures { result ≡ pivot_passes least x }
{
    binary64::is_finite(x) & !(binary64::abs(x) <= least)
}
