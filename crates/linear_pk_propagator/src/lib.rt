// The exponential of a duration, of n states and the rates between them, and the amounts after it is applied to them.
// By fixed memory: n, the count of states in use, stands beside a matrix of the most states, since there is no heap.
#![tactic(auto)]

ghost use Rattle.std.specs.Prelude.{◌≡◌, ◌≤◌, ◌<◌, ◌+◌, cond, ltb, length, take};
ghost use Rattle.limits.specs.Limits.{states, block};
ghost use Rattle.binary64.specs.Doubles.{plus_zero};
ghost use Rattle.matrix.specs.Matrix.{tabulate, table, cell, all_to};
ghost use Rattle.matrix.specs.Arrays.{Holds};
ghost use Rattle.matrix.specs.Exponential.{scheme};
ghost use Rattle.exponential.specs.Answers.{exponential_of};
ghost use Rattle.refusal.specs.Numbers.{outcome_with};
ghost use Rattle.linear_pk_propagator.specs.Propagator.{entry as entry_of, block_cell, propagator as propagator_of};
ghost use Rattle.std.specs.Float.Ieee.Scale.{finite};
ghost use Rattle.std.specs.Float.{binary64};
ghost use Rattle.std.specs.Float.Ieee.{mul};
ghost use Rattle.linear_pk_propagator.specs.Amounts.{amount_to};

use exponential::Propagator;
use limits::{BLOCK, RATE_CELLS, STATES};
use refusal::Refusal;
use std::array;

// The rate from state j to state i.
pub fn entry(matrix: [f64; RATE_CELLS], i: usize, j: usize) -> f64
    requires { (i < states) × (j < states) }
    ensures { result ≡ entry_of matrix i j }
{
    let at = i * STATES + j;
    matrix[at]
}

// The block's cell: rates times duration in the upper left n by n, ones at (i, i + n).
fn block_cell(matrix: [f64; RATE_CELLS], n: usize, duration: f64, i: usize, j: usize) -> f64
    requires { n ≤ states }
    ensures { result ≡ block_cell n matrix duration i j }
{
    if i >= n {
        return 0.0;
    }
    if j < n {
        return entry(matrix, i, j) * duration;
    }
    if j - n == i { 1.0 } else { 0.0 }
}

fn block_row(matrix: [f64; RATE_CELLS], n: usize, duration: f64, i: usize) -> [f64; BLOCK]
    requires { n ≤ states }
    ensures { result ≡ tabulate block (block_cell n matrix duration i) }
{
    array::from_fn(|j| block_cell(matrix, n, duration, i, j))
}

// The block of a duration.
fn block_of(matrix: [f64; RATE_CELLS], n: usize, duration: f64) -> [[f64; BLOCK]; BLOCK]
    requires { n ≤ states }
    ensures { Holds (n + n) result (table (n + n) (block_cell n matrix duration)) }
{
    array::from_fn(
        |i|
            requires { n ≤ states }
            ensures { result ≡ tabulate block (block_cell n matrix duration i) }
        { block_row(matrix, n, duration, i) },
    )
}

// The exponential of a duration, apart from the amounts that it is applied to.
pub fn propagator(matrix: [f64; RATE_CELLS], n: usize, duration: f64) -> Result<Propagator, Refusal>
    requires { n ≤ states }
    ensures { outcome_with (exponential_of (n + n)) result ≡ propagator_of scheme n matrix duration }
{
    exponential::exponential(block_of(matrix, n, duration), n + n)
}

// Whether each input rate·duration is finite.
pub fn inputs_finite(rates: &[f64], duration: f64) -> bool
    ensures { result ≡ all_to (λ j. finite (mul binary64 (cell rates.now j) duration)) (length rates.now) }
{
    rates
        .iter()
        .all(|rate| binary64::is_finite(*rate * duration))
}

// Amount i after p: each pair is added first.
fn amount(p: &[[f64; BLOCK]; BLOCK], amounts: &[f64], rates: &[f64], duration: f64, i: usize) -> f64
    requires { (length amounts.now ≤ states) × (i < length amounts.now) × (length rates.now ≡ length amounts.now) }
    ensures { result ≡ amount_to p.now (length amounts.now) amounts.now rates.now duration i (length amounts.now) }
{
    let n = amounts.len();
    let mut sum = -0.0f64;
    // By index: both halves of row i, the amounts and the rates go side by side; zips of four, `(((p, q), amount), rate)`, are no plainer.
    for j in 0..n {
        sum = sum + (p[i][j] * amounts[j] + p[i][j + n] * (rates[j] * duration));
    }
    sum
}

// The amounts after p, from place 0.
pub fn amounts_after(
    p: &[[f64; BLOCK]; BLOCK],
    amounts: &[f64],
    rates: &[f64],
    duration: f64,
) -> [f64; STATES]
    requires { (length amounts.now ≤ states) × (length rates.now ≡ length amounts.now) }
    ensures { take (length amounts.now) result
        ≡ tabulate (length amounts.now) (λ i. amount_to p.now (length amounts.now) amounts.now rates.now duration i (length amounts.now)) }
{
    array::from_fn(
        |i|
            requires { (length amounts.now ≤ states) × (length rates.now ≡ length amounts.now) }
            ensures { result ≡ cond (ltb i (length amounts.entry.now))
                (amount_to p.entry.now (length amounts.entry.now) amounts.entry.now rates.entry.now duration i (length amounts.entry.now)) plus_zero }
        {
            if i < amounts.len() {
                amount(p, amounts, rates, duration, i)
            } else {
                0.0
            }
        },
    )
}
