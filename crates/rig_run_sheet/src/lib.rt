// The run of a kernel and the other bodies of a sheet.
#![tactic(auto)]

ghost use Rattle.std.specs.Prelude.{◌≡◌, cond, leb, length, ◌*◌, ◌/◌, ◌≤◌};
ghost use Rattle.limits.specs.Limits.{most_cycle_events, event_size, read_amounts};
ghost use Rattle.linear_pk.specs.LinearPk.{state_count};
ghost use Rattle.protocol.specs.Entry.{report_of, times_at_exit, sides_at_exit, values_at_exit};
ghost use Rattle.simulation_report.specs.Replies.{run_reply};
ghost use Rattle.sheet.specs.Sheet.{words_of};
ghost use Rattle.rig_run_sheet.specs.SheetRun.{run_with, reckoned_of};

use limits::READ_AMOUNTS;
use linear_pk::LinearPk;
use sheet::Part;
use simulation_report::{Reached, RunError};

// How many amounts are read.
pub fn known(given: usize) -> usize
    ensures { result ≡ cond (leb given read_amounts) given read_amounts }
{
    given.min(READ_AMOUNTS)
}

// The run of a kernel and the other bodies, into slices of the reckoned rows.
// By body: `Bodies` keeps a limit of samples too, and a run asks for none.
pub fn simulate_bodies(
    kernel: LinearPk,
    window: &[u8],
    amounts: &[u8],
    samples: &[u8],
    events: &[u8],
    initial: &mut [f64],
    readings: &mut [f64],
    times: &mut [f64],
    sides: &mut [u8],
    values: &mut [f64],
) -> Result<Reached, RunError>
    requires { (72 ≤ length window.now) × (length events.now / 8 / event_size ≤ most_cycle_events)
        × (length initial.old ≡ cond (leb (length amounts.now / 8) read_amounts) (length amounts.now / 8) read_amounts)
        × (length readings.old ≡ length samples.now / 8)
        × (length times.old ≡ reckoned_of (words_of samples.now) (words_of events.now))
        × (length sides.old ≡ reckoned_of (words_of samples.now) (words_of events.now))
        × (length values.old ≡ reckoned_of (words_of samples.now) (words_of events.now) * state_count kernel) }
    ensures result_value { run_reply result ≡ report_of (run_with kernel (words_of window.now) (words_of amounts.now)
        (words_of samples.now) (words_of events.now)) }
    ensures times_after { times.new ≡ times_at_exit (reckoned_of (words_of samples.now) (words_of events.now))
        (run_with kernel (words_of window.now) (words_of amounts.now) (words_of samples.now)
        (words_of events.now)) times.old }
    ensures sides_after { sides.new ≡ sides_at_exit (reckoned_of (words_of samples.now) (words_of events.now))
        (run_with kernel (words_of window.now) (words_of amounts.now) (words_of samples.now)
        (words_of events.now)) sides.old }
    ensures values_after { values.new ≡ values_at_exit (reckoned_of (words_of samples.now) (words_of events.now)) (state_count kernel)
        (run_with kernel (words_of window.now) (words_of amounts.now) (words_of samples.now)
        (words_of events.now)) values.old }
{
    sheet_values::doubles(amounts, 0, initial);
    sheet_values::doubles(samples, 0, readings);
    let list = events_layout::events_of(Part(events));
    let span = sheet_values::window_of(window);
    simulation::simulate(
        kernel,
        initial,
        span,
        list.as_slice(),
        readings,
        times,
        sides,
        values,
    )
}
