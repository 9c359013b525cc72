// Demand 3 stated of the code: what a call of the library's entries, or of the entry that `rig-steady` calls, ensures is the claim. That
// the times of a call are doubles is given by their types; those of the events are read for it.
#![tactic(auto)]

ghost use Rattle.std.specs.Prelude.{◌≡◌, T};
ghost use Rattle.std.specs.Float.{binary64};
ghost use Rattle.std.specs.Float.Ieee.{fits};
ghost use Rattle.binary64.specs.Lists.{all};
ghost use Rattle.protocol.specs.Events.{time};
ghost use Rattle.simulation_report.specs.Replies.{run_reply};
ghost use Rattle.theorem_runs_and_cycles.specs.Simulate.{SameRows};
ghost use Rattle.theorem_calls.specs.Claims.{Simulated, Steady, window_between};
ghost use Rattle.refusal.specs.Numbers.{reply_number};
ghost use Rattle.theorem_calls.specs.Shown.{Shown};

use cycle::SteadyStateTolerance;
use linear_pk::LinearPk;
use periodic_runs::Stop;
use printout::PrintReply;
use protocol::{Event, Window};
use simulation_report::{Reached, RunError};

// The times of the events are doubles: each is read.
fn read_times(events: &[Event])
    ensures { T (all (λ e. fits binary64 (time e)) events.now) }
{
    for event in events {
        let _time = event.time();
    }
}

// A run of `simulate`.
fn simulate(
    kernel: LinearPk,
    amounts: &[f64],
    window: Window,
    events: &[Event],
    samples: &[f64],
    times: &mut [f64],
    sides: &mut [u8],
    values: &mut [f64],
) -> Result<Reached, RunError>
    ensures { Simulated
        (record {
          kernel = kernel;
          amounts = amounts.now;
          window = window;
          events = events.now;
          samples = samples.now;
          lent = record { times = times.entry.now; sides = sides.old; values = values.old };
        })
        result (record { times = times.exit.now; sides = sides.new; values = values.new }) }
{
    read_times(events);
    simulation::simulate(
        kernel, amounts, window, events, samples, times, sides, values,
    )
}

// The tolerances and the budgets of a window.
#[derive(Clone, Copy)]
struct Settings {
    rtol: f64,
    atol: f64,
    propagations: u64,
    events: usize,
    outputs: usize,
}

fn window_of(start: f64, end: f64, settings: Settings) -> Window
    ensures { result ≡ window_between start end settings }
{
    Window {
        start,
        end,
        rtol: settings.rtol,
        atol: settings.atol,
        propagations: settings.propagations,
        events: settings.events,
        outputs: settings.outputs,
    }
}

#[derive(Clone, Copy)]
struct Replies {
    first: Result<Reached, RunError>,
    second: Result<Reached, RunError>,
}

// Two runs that differ in samples, tolerances, budgets and slices alone, where both reply 0.
fn simulate_twice(
    kernel: LinearPk,
    amounts: &[f64],
    start: f64,
    end: f64,
    events: &[Event],
    settings: Settings,
    samples: &[f64],
    times: &mut [f64],
    sides: &mut [u8],
    values: &mut [f64],
    other_settings: Settings,
    other_samples: &[f64],
    other_times: &mut [f64],
    other_sides: &mut [u8],
    other_values: &mut [f64],
) -> Replies
    ensures { (run_reply result.first).number ≡ 0 → (run_reply result.second).number ≡ 0 → SameRows
        (record {
          kernel = kernel;
          amounts = amounts.now;
          window = window_between start end settings;
          events = events.now;
          samples = samples.now;
          lent = record { times = times.entry.now; sides = sides.old; values = values.old };
        })
        (record {
          kernel = kernel;
          amounts = amounts.now;
          window = window_between start end other_settings;
          events = events.now;
          samples = other_samples.now;
          lent = record { times = other_times.old; sides = other_sides.old; values = other_values.old };
        })
        (record { times = times.exit.now; sides = sides.new; values = values.new })
        (record { times = other_times.new; sides = other_sides.new; values = other_values.new }) }
{
    read_times(events);
    let first = simulation::simulate(
        kernel,
        amounts,
        window_of(start, end, settings),
        events,
        samples,
        times,
        sides,
        values,
    );
    let second = simulation::simulate(
        kernel,
        amounts,
        window_of(start, end, other_settings),
        events,
        other_samples,
        other_times,
        other_sides,
        other_values,
    );
    Replies { first, second }
}

// A closed cycle of `periodic_steady_state`.
fn periodic_steady_state(
    kernel: LinearPk,
    window: Window,
    events: &[Event],
    samples: &[f64],
    tolerance: SteadyStateTolerance,
    amounts: &mut [f64],
    residual: &mut [f64],
) -> Result<f64, Stop>
    ensures { Steady
        (record {
          kernel = kernel;
          window = window;
          events = events.now;
          samples = samples.now;
          tolerance = tolerance;
          lent = record { amounts = amounts.entry.now; residual = residual.old };
        })
        result (record { amounts = amounts.exit.now; residual = residual.new }) }
{
    read_times(events);
    periodic::periodic_steady_state(
        kernel, window, events, samples, tolerance, amounts, residual,
    )
}

fn steady_sheet(bytes: &[u8], out: &mut [u8]) -> PrintReply
    ensures { Shown bytes.now out.old (reply_number result.reply) result.length out.new }
{
    rig_steady_sheet::steady_sheet(bytes, out)
}
