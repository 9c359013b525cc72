// The C interface of a folded and of a closed cycle.
// By the C interface: a function has the parameters that a C program passes, one by one.
ghost use Rattle.std.specs.Prelude.{◌≡◌, [], length};
ghost use Rattle.refusal.specs.Result.{number, value_or};
ghost use Rattle.capi_kernel.specs.Cells.{kernel_at};
ghost use Rattle.capi_run.specs.Run.{window_from};
ghost use Rattle.cycle.specs.Closed.{steady_report_of, answer_at_exit};
ghost use Rattle.capi_fold.specs.Words.{fold_words, cells_of};
ghost use Rattle.periodic_acceptance.specs.Entry.{steady_room};
ghost use Rattle.capi_steady.specs.Words.{steady_words};

use crate::run::window_from;
use cycle::SteadyStateTolerance;

#[unsafe(no_mangle)]
pub extern "C" fn linear_pk_normalize_periodic_cycle(
    kernel: &[f64],
    start: f64,
    end: f64,
    rtol: f64,
    atol: f64,
    propagations: u64,
    event_budget: usize,
    output_budget: usize,
    events: &[u64],
    samples: &[f64],
    folded: &mut [u64],
    count: &mut usize,
) -> u64
    ensures value { result ≡ number (fold_words (kernel_at kernel.now)
        (window_from start end rtol atol propagations event_budget output_budget) events.now samples.now (length folded.old)) }
    ensures count_after { count.new ≡ length (value_or (fold_words (kernel_at kernel.now)
        (window_from start end rtol atol propagations event_budget output_budget) events.now samples.now
        (length folded.old)) []) }
    ensures folded_after { folded.new ≡ cells_of (fold_words (kernel_at kernel.now)
        (window_from start end rtol atol propagations event_budget output_budget) events.now samples.now
        (length folded.old)) folded.old }
{
    let window = window_from(
        start,
        end,
        rtol,
        atol,
        propagations,
        event_budget,
        output_budget,
    );
    match capi_fold::fold_words(
        capi_kernel_cells::kernel_at(kernel),
        window,
        events,
        samples,
        folded,
    ) {
        Ok(listed) => {
            *count = listed;
            0
        }
        Err(refusal) => {
            *count = 0;
            u64::from(refusal)
        }
    }
}

#[unsafe(no_mangle)]
pub extern "C" fn linear_pk_periodic_steady_state(
    kernel: &[f64],
    start: f64,
    end: f64,
    rtol: f64,
    atol: f64,
    propagations: u64,
    event_budget: usize,
    output_budget: usize,
    events: &[u64],
    samples: &[f64],
    absolute: f64,
    relative: f64,
    amounts: &mut [f64],
    residual: &mut [f64],
    time: &mut f64,
    maximum: &mut f64,
) -> u64
    ensures maximum_after { record { number = result; time = time.new; maximum = maximum.new }
        ≡ steady_report_of (steady_words (kernel_at kernel.now)
        (window_from start end rtol atol propagations event_budget output_budget) samples.now events.now
        (record { absolute = absolute; relative = relative }) (steady_room (kernel_at kernel.now)
        (length amounts.old) (length residual.old))) }
    ensures amounts_after { amounts.new ≡ answer_at_exit (λ s. s.amounts) (steady_words (kernel_at kernel.now)
        (window_from start end rtol atol propagations event_budget output_budget) samples.now events.now
        (record { absolute = absolute; relative = relative }) (steady_room (kernel_at kernel.now)
        (length amounts.old) (length residual.old))) amounts.old }
    ensures residual_after { residual.new ≡ answer_at_exit (λ s. s.residuals) (steady_words (kernel_at kernel.now)
        (window_from start end rtol atol propagations event_budget output_budget) samples.now events.now
        (record { absolute = absolute; relative = relative }) (steady_room (kernel_at kernel.now)
        (length amounts.old) (length residual.old))) residual.old }
{
    let window = window_from(
        start,
        end,
        rtol,
        atol,
        propagations,
        event_budget,
        output_budget,
    );
    let tolerance = SteadyStateTolerance { absolute, relative };
    match capi_steady::steady_words(
        capi_kernel_cells::kernel_at(kernel),
        window,
        events,
        samples,
        tolerance,
        amounts,
        residual,
    ) {
        Ok(greatest) => {
            *time = 0.0;
            *maximum = greatest;
            0
        }
        Err(stop) => {
            *time = stop.time;
            *maximum = 0.0;
            u64::from(stop.refusal)
        }
    }
}
