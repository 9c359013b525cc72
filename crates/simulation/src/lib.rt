// `simulate`: the tests ahead of a run, the run, and what it leaves in the three lent slices.
// By the tests: a fold tests other events under the same window, and a closed cycle runs without samples on another window.
#![tactic(auto)]

ghost use Rattle.std.specs.Prelude.{◌≡◌, length, take};
ghost use Rattle.std.proofs.Math.Option.{none};
ghost use Rattle.refusal.specs.Result.{done};
ghost use Rattle.linear_pk.specs.LinearPk.{state_count, sound};
ghost use Rattle.protocol.specs.Prepare.{reckoned};
ghost use Rattle.protocol.specs.Execute.{run_of};
ghost use Rattle.protocol.specs.Entry.{first_refusal, report_of, times_at_exit, sides_at_exit, values_at_exit};
ghost use Rattle.rows.specs.Lent.{SameSlices};
ghost use Rattle.preparation.specs.Preparation.{own_number};
ghost use Rattle.simulation_report.specs.Replies.{room, run_reply};
ghost use Rattle.simulation.specs.KernelRun.{propagator_of};
ghost use Rattle.simulation.specs.Entries.{simulate_entry};

use limits::{EVENTS, SAMPLES, STATES};
use linear_pk::LinearPk;
use protocol::{Event, Window};
use refusal::Refusal;
use rows::Rows;
use simulation_report::{Reached, RunError};

// The run that no test ahead refuses: its rows over zeros, and zeros alone where it stops.
pub fn run_prepared(
    kernel: LinearPk,
    initial: [f64; STATES],
    window: Window,
    events: &[Event],
    samples: &[f64],
    rows: &mut Rows<'_>,
) -> Result<Reached, RunError>
    requires { first_refusal (own_number (sound kernel)) (state_count kernel) window samples.now events.now
        (take (state_count kernel) initial)
        (room (length rows.old.times.now) (length rows.old.sides.now) (length rows.old.values.now)) ≡ none }
    ensures result_value { run_reply result ≡ report_of (done (run_of (propagator_of kernel) (state_count kernel) window samples.now
        events.now (take (state_count kernel) initial))) }
    ensures times_after { rows.new.times.now ≡ times_at_exit (reckoned samples.now events.now)
        (done (run_of (propagator_of kernel) (state_count kernel) window samples.now
        events.now (take (state_count kernel) initial))) rows.old.times.now }
    ensures sides_after { rows.new.sides.now ≡ sides_at_exit (reckoned samples.now events.now)
        (done (run_of (propagator_of kernel) (state_count kernel) window samples.now
        events.now (take (state_count kernel) initial))) rows.old.sides.now }
    ensures values_after { rows.new.values.now ≡ values_at_exit (reckoned samples.now
        events.now) (state_count kernel)
        (done (run_of (propagator_of kernel) (state_count kernel) window samples.now
        events.now (take (state_count kernel) initial))) rows.old.values.now }
    ensures slices { SameSlices rows.old rows.new }
{
    let n = kernel.state_count();
    let reckoned = preparation::reckoned_rows(samples, events);
    rows.clear(n, reckoned);
    let run = simulation_matrix::on_schedule(kernel, n, initial, window, events, samples, rows);
    match run {
        Err(stop) => {
            rows.clear(n, reckoned);
            Err(RunError::Stopped {
                refusal: stop.refusal,
                time: stop.time,
                advances: stop.at.made,
            })
        }
        Ok(p) => Ok(Reached {
            rows: p.rows,
            advances: p.made,
        }),
    }
}

// A run of the events from the amounts: 5, 1, 2, 3, the preparation, 4, then the run.
// By slices: C and the replays lend three; a `Rows` of them is made here, once for every caller.
pub fn simulate(
    kernel: LinearPk,
    amounts: &[f64],
    window: Window,
    events: &[Event],
    samples: &[f64],
    times: &mut [f64],
    sides: &mut [u8],
    values: &mut [f64],
) -> Result<Reached, RunError>
    ensures result_value { run_reply result ≡ report_of (simulate_entry kernel amounts.now window events.now samples.now
        (room (length times.old) (length sides.old) (length values.old))) }
    ensures times_after { times.new ≡ times_at_exit (reckoned samples.now events.now)
        (simulate_entry kernel amounts.now window events.now samples.now
        (room (length times.old) (length sides.old) (length values.old))) times.old }
    ensures sides_after { sides.new ≡ sides_at_exit (reckoned samples.now events.now)
        (simulate_entry kernel amounts.now window events.now samples.now
        (room (length times.old) (length sides.old) (length values.old))) sides.old }
    ensures values_after { values.new ≡ values_at_exit (reckoned samples.now events.now) (state_count kernel)
        (simulate_entry kernel amounts.now window events.now samples.now
        (room (length times.old) (length sides.old) (length values.old))) values.old }
{
    if events.len() > EVENTS || samples.len() > SAMPLES {
        return Err(RunError::Refused(Refusal::Limit));
    }
    let start = kernel.bind(amounts)?;
    preparation::admission::admitted(
        kernel.state_count(),
        window,
        samples,
        events,
        times.len(),
        sides.len(),
        values.len(),
    )?;
    let mut rows = Rows {
        times,
        sides,
        values,
    };
    run_prepared(kernel, start.initial, window, events, samples, &mut rows)
}
