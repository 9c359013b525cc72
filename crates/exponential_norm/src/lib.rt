// The norm of a square matrix, how often it is halved, and whether a matrix is finite.
// By fixed memory: m of N rows and columns are in use, without a heap; a type that keeps m ≤ N would be unwrapped at each slice.
#![tactic(auto)]

ghost use Rattle.std.specs.Prelude.{◌≡◌, ◌≤◌};
ghost use Rattle.std.specs.Float.Ieee.Scale.{finite};
ghost use Rattle.binary64.specs.Doubles.{magnitude};
ghost use Rattle.matrix.specs.Matrix.{cell, sum_to, all_to};
ghost use Rattle.matrix.specs.Exponential.{norm_to, halving_count, all_finite};
ghost use Rattle.refusal.specs.Numbers.{outcome_of};

use refusal::Refusal;

// The sum of the first m magnitudes of a row.
fn row_sum<const N: usize>(row: &[f64; N], m: usize) -> f64
    requires { m ≤ N }
    ensures { result ≡ sum_to (λ j. magnitude (cell row.now j)) m }
{
    let mut sum = -0.0f64;
    for x in &row[..m] {
        sum = sum + binary64::abs(*x);
    }
    sum
}

// The largest row sum.
pub fn norm<const N: usize>(a: &[[f64; N]; N], m: usize) -> f64
    requires { m ≤ N }
    ensures { result ≡ norm_to a.now m m }
{
    let mut largest = 0.0f64;
    for row in &a[..m] {
        largest = binary64_order::max(largest, row_sum(row, m));
    }
    largest
}

// How many halvings bring a norm to the threshold or below.
pub fn count_halvings(norm: f64, threshold: f64, most: usize) -> Result<usize, Refusal>
    ensures { outcome_of result ≡ halving_count threshold most norm }
{
    if !binary64::is_finite(norm) {
        return Err(Refusal::NormNotFinite);
    }
    let mut left = norm;
    // By count: n is the number of halvings made, and no index.
    for n in 0..=most {
        if !(left > threshold) {
            return Ok(n);
        }
        left = left * 0.5;
    }
    Err(Refusal::TooManyHalvings)
}

// Whether the first m numbers of a row are finite.
fn row_finite<const N: usize>(row: &[f64; N], m: usize) -> bool
    requires { m ≤ N }
    ensures { result ≡ all_to (λ j. finite (cell row.now j)) m }
{
    binary64::all_finite(&row[..m])
}

pub fn all_finite<const N: usize>(a: &[[f64; N]; N], m: usize) -> bool
    requires { m ≤ N }
    ensures { result ≡ all_finite m a.now }
{
    a[..m].iter().all(
        |row|
            requires { m ≤ N }
            ensures { result ≡ all_to (λ j. finite (cell row.now j)) m }
        { row_finite(row, m) },
    )
}
