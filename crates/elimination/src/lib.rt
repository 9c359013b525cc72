// Gaussian elimination with partial pivoting and back substitution.
// By fixed memory: n of the most rows and columns are in use, without a heap; `solve` makes a `System` of them, which keeps n ≤ states.
#![tactic(auto)]

ghost use Rattle.std.specs.Prelude.{◌≡◌, ◌≤◌, take};
ghost use Rattle.limits.specs.Limits.{states};
ghost use Rattle.matrix.specs.Matrix.{table as table_of};
ghost use Rattle.matrix.specs.Arrays.{lead};
ghost use Rattle.refusal.specs.Numbers.{outcome_with};
ghost use Rattle.cycle.specs.Elimination.{system_cell, solve as solveOf};

use elimination_steps::{right, table};
use elimination_system::System;
use elimination_system::entries::at;
use limits::STATES;
use refusal::Refusal;

// The system of a cycle: identity minus the columns, of which columns has one in each row.
pub fn system(n: usize, columns: &[[f64; STATES]; STATES]) -> [[f64; STATES]; STATES]
    requires { n ≤ states }
    ensures { lead n result ≡ table_of n (system_cell (lead n columns.now)) }
{
    table::system(columns)
}

// The amounts x of matrix·x = right, column by column and then from the last amount on.
pub fn solve(
    n: usize,
    matrix: [[f64; STATES]; STATES],
    right: [f64; STATES],
) -> Result<[f64; STATES], Refusal>
    requires { n ≤ states }
    ensures { outcome_with (take n) result ≡ solveOf n (record { matrix = lead n matrix; right = take n right }) }
{
    let mut system = System { n, matrix, right };
    let least = system.least_pivot();
    // By index: column k has its pivot at row k.
    for k in 0..n {
        let p = system.pivot_row(k);
        if !elimination_system::pivot::passes(least, at(&system.matrix, p, k)) {
            return Err(Refusal::Pivot);
        }
        system.matrix.swap(k, p);
        system.right.swap(k, p);
        system.right = right::reduced(&system, k);
        system.matrix = table::reduced(&system.matrix, k);
    }
    Ok(elimination_steps::substitution::solved(&system))
}
