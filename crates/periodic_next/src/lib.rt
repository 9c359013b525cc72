// One cycle of a folded list from given amounts, by the library's run.
// By room: a type that kept these three lengths would be made for one run and opened at one; `Rows` lends the slices as they are.
#![tactic(auto)]

ghost use Rattle.std.specs.Prelude.{◌≡◌, ◌+◌, ◌≤◌, length, take, drop};
ghost use Rattle.limits.specs.Limits.{cycle_rows, cycle_values};
ghost use Rattle.linear_pk.specs.LinearPk.{state_count};
ghost use Rattle.simulation.specs.KernelRun.{propagator_of};
ghost use Rattle.cycle.specs.Closed.{got, last_of};
ghost use Rattle.rows.specs.Lent.{SameSlices};
ghost use Rattle.periodic_next.specs.ReachesEnd.{ReachesEnd};

use linear_pk::LinearPk;
use protocol::{Event, Window};
use rows::Rows;

// The place in the values from which the amounts at the cycle's end stand: the run's last row. Four rows for each of 192 events, and two, have
// room.
pub fn simulate_cycle(
    kernel: LinearPk,
    window: Window,
    events: &[Event],
    amounts: &[f64],
    rows: &mut Rows<'_>,
) -> usize
    requires { ReachesEnd kernel window events.now amounts.now × (cycle_rows ≤ length rows.old.times.now)
        × (cycle_rows ≤ length rows.old.sides.now) × (cycle_values ≤ length rows.old.values.now) }
    ensures end { (result + state_count kernel ≤ length rows.new.values.now)
        × (last_of (propagator_of kernel) (state_count kernel) window events.now amounts.now
        ≡ got (take (state_count kernel) (drop result rows.new.values.now))) }
    ensures slices { SameSlices rows.old rows.new }
{
    let n = kernel.state_count();
    let span = periodic_inputs::divided(n, window);
    let reached = simulation::simulate(
        kernel,
        amounts,
        span,
        events,
        &[],
        rows.times,
        rows.sides,
        rows.values,
    )
    .unwrap();
    (reached.rows - 1) * n
}
