// A run of events that are laid out as words, six to an event.
#![tactic(auto)]

ghost use Rattle.std.specs.Prelude.{◌≡◌, length};
ghost use Rattle.linear_pk.specs.LinearPk.{state_count};
ghost use Rattle.events_layout.specs.Layout.{events_of};
ghost use Rattle.protocol.specs.Prepare.{reckoned};
ghost use Rattle.protocol.specs.Entry.{report_of, times_at_exit, sides_at_exit, values_at_exit};
ghost use Rattle.simulation_report.specs.Replies.{room, run_reply};
ghost use Rattle.capi_run.specs.Run.{simulate_words};

use limits::{EVENT_SIZE, EVENTS};
use linear_pk::LinearPk;
use protocol::Window;
use refusal::Refusal;
use simulation_report::{Reached, RunError};

// A run of the events that the words hold: 40 where they are none.
// By the C interface: each stands behind a pointer of its own, so that one kernel and one window serve runs from many amounts.
pub fn simulate_words(
    kernel: LinearPk,
    amounts: &[f64],
    window: Window,
    events: &[u64],
    samples: &[f64],
    times: &mut [f64],
    sides: &mut [u8],
    values: &mut [f64],
) -> Result<Reached, RunError>
    ensures result_value { run_reply result ≡ report_of (simulate_words kernel amounts.now window events.now samples.now
        (room (length times.old) (length sides.old) (length values.old))) }
    ensures times_after { times.new ≡ times_at_exit (reckoned samples.now (events_of events.now))
        (simulate_words kernel amounts.now window events.now samples.now
        (room (length times.old) (length sides.old) (length values.old))) times.old }
    ensures sides_after { sides.new ≡ sides_at_exit (reckoned samples.now (events_of events.now))
        (simulate_words kernel amounts.now window events.now samples.now
        (room (length times.old) (length sides.old) (length values.old))) sides.old }
    ensures values_after { values.new ≡ values_at_exit (reckoned samples.now (events_of events.now))
        (state_count kernel) (simulate_words kernel amounts.now window events.now samples.now
        (room (length times.old) (length sides.old) (length values.old))) values.old }
{
    if !events_layout::events_fit(events) {
        return Err(Refusal::Layout.into());
    }
    if events.len() / EVENT_SIZE > EVENTS {
        return Err(Refusal::Limit.into());
    }
    let list = events_layout::events_of(events);
    simulation::simulate(
        kernel,
        amounts,
        window,
        list.as_slice(),
        samples,
        times,
        sides,
        values,
    )
}
