// Rows of a block, over the whole width.
// By fixed memory: m of a block's rows are in use, without a heap; a type that keeps m ≤ block would be unwrapped at the one slice.
ghost use Rattle.std.specs.Prelude.{◌≡◌, ◌≤◌};
ghost use Rattle.limits.specs.Limits.{block};
ghost use Rattle.matrix.specs.Arrays.{scaled_sum, row_quotient, row_sum_of, row_half, row_times};

use limits::BLOCK;
use std::array;

// sum + x·row
pub fn plus_scaled(sum: [f64; BLOCK], x: f64, row: [f64; BLOCK]) -> [f64; BLOCK]
    ensures { result ≡ scaled_sum sum x row }
{
    array::from_fn(|j| sum[j] + x * row[j])
}

pub fn divided(row: [f64; BLOCK], x: f64) -> [f64; BLOCK]
    ensures { result ≡ row_quotient row x }
{
    array::from_fn(|j| row[j] / x)
}

pub fn added(row: [f64; BLOCK], term: [f64; BLOCK]) -> [f64; BLOCK]
    ensures { result ≡ row_sum_of row term }
{
    array::from_fn(|j| row[j] + term[j])
}

pub fn halved(row: [f64; BLOCK]) -> [f64; BLOCK]
    ensures { result ≡ row_half row }
{
    array::from_fn(|j| row[j] * 0.5)
}

// row × b, where b has m rows in use: the rows of b, scaled and summed in order.
pub fn times(row: &[f64; BLOCK], b: &[[f64; BLOCK]; BLOCK], m: usize) -> [f64; BLOCK]
    requires { m ≤ block }
    ensures { result ≡ row_times row.now b.now m }
{
    let mut sum = [-0.0f64; BLOCK];
    for (x, line) in row.iter().zip(&b[..m]) {
        let next = plus_scaled(sum, *x, *line);
        sum = next;
    }
    sum
}
