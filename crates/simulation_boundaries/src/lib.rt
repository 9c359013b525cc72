// The loop over boundaries of the analytic run.
// By contract: n is any count up to the most states, as the definitions take it; the kernel's own would be a tighter clause.
#![tactic(auto)]

ghost use Rattle.std.specs.Prelude.{◌≤◌, length};
ghost use Rattle.limits.specs.Limits.{most_events};
ghost use Rattle.protocol.specs.Schedule.{from_first};
ghost use Rattle.rows.specs.Lent.{cells_of, SameSlices};
ghost use Rattle.rows.specs.Standing.{Ran, Fits, kernel_advance};

use doses::Boundary;
use doses_steps::Instant;
use limits::EVENTS;
use linear_pk::LinearPk;
use protocol::Event;
use rows::{Leg, Progress, Rows, Stopped};

// From the first boundary to the last, or to the first step that refuses.
pub fn over_boundaries(
    kernel: LinearPk,
    n: usize,
    events: &[Event],
    bounds: &[f64],
    samples: &[f64],
    start: Progress,
    rows: &mut Rows<'_>,
) -> Result<Progress, Stopped>
    requires { (length events.now ≤ most_events) × (1 ≤ length bounds.now)
        × Fits n start (from_first n events.now samples.now bounds.now)
        (cells_of rows.old) }
    ensures ran { Ran (kernel_advance kernel n) n start (from_first n events.now
        samples.now bounds.now)
        (cells_of rows.old) result (cells_of rows.new) }
    ensures slices { SameSlices rows.old rows.new }
{
    let mut unmarked = [false; EVENTS];
    let marks = &mut unmarked[..events.len()];
    let mut p = start;
    for (&t, &u) in bounds.iter().zip(&bounds[1..]) {
        let at = Instant { n, t };
        let boundary = Boundary { events, at };
        let q = rows_boundary::at_boundary(&boundary, p, rows)?;
        events_at::marks::mark(events, t, marks);
        let rates = events_at::rates::summed_rates(events, n, t, marks);
        let leg = Leg {
            kernel,
            n,
            t,
            rates,
        };
        p = rows_interval::on_interval(&leg, u, samples, q, rows)?;
    }
    let end = bounds[bounds.len() - 1];
    let at = Instant { n, t: end };
    let boundary = Boundary { events, at };
    rows_boundary::at_boundary(&boundary, p, rows)
}
