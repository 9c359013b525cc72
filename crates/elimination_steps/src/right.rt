// The right side of a system, over the whole width.
ghost use Rattle.std.specs.Prelude.{◌≡◌};
ghost use Rattle.limits.specs.Limits.{states};
ghost use Rattle.matrix.specs.Matrix.{tabulate};
ghost use Rattle.cycle.specs.Elimination.{reduced_right};

use elimination_system::System;
use elimination_system::entries::reduced_entry;
use limits::STATES;
use std::array;

// The entries behind entry k less their row's multiple of it.
pub fn reduced(system: &System, k: usize) -> [f64; STATES]
    ensures { result ≡ tabulate states (reduced_right (record { matrix = system.now.matrix; right = system.now.right }) k) }
{
    array::from_fn(|i| reduced_entry(&system.matrix, system.right, k, i))
}
