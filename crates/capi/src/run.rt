// The C interface of a run.
// By the C interface: a function has the parameters that a C program passes, one by one.
ghost use Rattle.std.specs.Prelude.{◌≡◌, length};
ghost use Rattle.linear_pk.specs.LinearPk.{state_count};
ghost use Rattle.events_layout.specs.Layout.{events_of};
ghost use Rattle.protocol.specs.Prepare.{reckoned};
ghost use Rattle.protocol.specs.Entry.{report_of, times_at_exit, sides_at_exit, values_at_exit};
ghost use Rattle.simulation_report.specs.Replies.{room};
ghost use Rattle.capi_kernel.specs.Cells.{kernel_at};
ghost use Rattle.capi_run.specs.Run.{window_from, simulate_words};

use protocol::Window;
use simulation_report::Report;

// The window of what a C program passes.
pub(crate) fn window_from(
    start: f64,
    end: f64,
    rtol: f64,
    atol: f64,
    propagations: u64,
    event_budget: usize,
    output_budget: usize,
) -> Window
    ensures { result ≡ window_from start end rtol atol propagations event_budget output_budget }
{
    Window {
        start,
        end,
        rtol,
        atol,
        propagations,
        events: event_budget,
        outputs: output_budget,
    }
}

#[unsafe(no_mangle)]
pub extern "C" fn linear_pk_simulate(
    kernel: &[f64],
    amounts: &[f64],
    start: f64,
    end: f64,
    rtol: f64,
    atol: f64,
    propagations: u64,
    event_budget: usize,
    output_budget: usize,
    events: &[u64],
    samples: &[f64],
    times: &mut [f64],
    sides: &mut [u8],
    values: &mut [f64],
    time: &mut f64,
    rows: &mut usize,
    advances: &mut u64,
) -> u64
    ensures advances_after { record { number = result; time = time.new; rows = rows.new; advances = advances.new }
        ≡ report_of (simulate_words (kernel_at kernel.now) amounts.now
        (window_from start end rtol atol propagations event_budget output_budget) events.now samples.now
        (room (length times.old) (length sides.old) (length values.old))) }
    ensures times_after { times.new ≡ times_at_exit (reckoned samples.now (events_of events.now))
        (simulate_words (kernel_at kernel.now) amounts.now
        (window_from start end rtol atol propagations event_budget output_budget) events.now samples.now
        (room (length times.old) (length sides.old) (length values.old))) times.old }
    ensures sides_after { sides.new ≡ sides_at_exit (reckoned samples.now (events_of events.now))
        (simulate_words (kernel_at kernel.now) amounts.now
        (window_from start end rtol atol propagations event_budget output_budget) events.now samples.now
        (room (length times.old) (length sides.old) (length values.old))) sides.old }
    ensures values_after { values.new ≡ values_at_exit (reckoned samples.now (events_of events.now))
        (state_count (kernel_at kernel.now)) (simulate_words (kernel_at kernel.now) amounts.now
        (window_from start end rtol atol propagations event_budget output_budget) events.now samples.now
        (room (length times.old) (length sides.old) (length values.old))) values.old }
{
    let window = window_from(
        start,
        end,
        rtol,
        atol,
        propagations,
        event_budget,
        output_budget,
    );
    let reply = capi_run::simulate_words(
        capi_kernel_cells::kernel_at(kernel),
        amounts,
        window,
        events,
        samples,
        times,
        sides,
        values,
    );
    let told = Report::from(reply);
    *time = told.time;
    *rows = told.rows;
    *advances = told.advances;
    told.number
}
