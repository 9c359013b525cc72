// Back substitution.
ghost use Rattle.std.specs.Prelude.{◌≡◌, ◌+◌, ◌-◌, ◌<◌, take};
ghost use Rattle.cycle.specs.Elimination.{solved_sum, solve_to};
ghost use Rattle.elimination_system.specs.Systems.{held};

use elimination_system::System;
use elimination_system::entries::at;
use limits::STATES;

// The products of row i with the amounts behind it, summed in order.
fn solved_sum(system: &System, x: &[f64; STATES], i: usize) -> f64
    requires { i < system.now.n }
    ensures { result ≡ solved_sum system.now.matrix x.now i (system.now.n - (i + 1)) }
{
    let mut sum = -0.0f64;
    for (&entry, &amount) in system.matrix[i][i + 1..system.n]
        .iter()
        .zip(&x[i + 1..system.n])
    {
        sum = sum + entry * amount;
    }
    sum
}

// The amounts, from the last on.
pub fn solved(system: &System) -> [f64; STATES]
    ensures { take system.now.n result ≡ solve_to system.now.n (held system.now.n system.now.matrix system.now.right) system.now.n }
{
    let mut x = [0.0f64; STATES];
    // By index: each amount is stored at its row, and read for the rows ahead of it.
    for i in (0..system.n).rev() {
        x[i] = (system.right[i] - solved_sum(system, &x, i)) / at(&system.matrix, i, i);
    }
    x
}
