// `periodic_steady_state`: the closed cycle of a list, from the tests ahead of it to the amounts, the residuals and the greatest scaled one.
// By test: the cycle is one that may be folded only behind the test of 5, which stands here.
#![tactic(auto)]

ghost use Rattle.std.specs.Prelude.{◌≡◌, length};
ghost use Rattle.linear_pk.specs.LinearPk.{state_count};
ghost use Rattle.simulation.specs.KernelRun.{propagator_of};
ghost use Rattle.cycle.specs.Closed.{closed as closedOf, steady_report_of, answer_at_exit};
ghost use Rattle.periodic_acceptance.specs.Entry.{steady_room, steady_entry, steady_reply};
ghost use Rattle.periodic_acceptance.specs.Replies.{SteadyAnswer};

use cycle::SteadyStateTolerance;
use fold_events::GivenCycle;
use limits::{CYCLE_EVENTS, SAMPLES};
use linear_pk::LinearPk;
use periodic_runs::PreparedCycle;
pub use periodic_runs::Stop;
use protocol::{Event, EventList, Window};
use refusal::Refusal;

// The closed cycle of the list, folded.
fn closed(
    kernel: LinearPk,
    given: &GivenCycle,
    tolerance: SteadyStateTolerance,
    amounts: &mut [f64],
    residual: &mut [f64],
) -> Result<f64, Stop>
    ensures { SteadyAnswer (closedOf (propagator_of kernel) (state_count kernel) given.now.window given.now.samples.now given.now.events.now tolerance
        (steady_room kernel (length amounts.old) (length residual.old)))
        (steady_reply result) amounts.old residual.old amounts.new residual.new }
{
    let n = kernel.state_count();
    let mut folded = EventList::new();
    periodic_preparation::prepare_periodic_steady_state(n, given, tolerance, &mut folded)?;
    let cycle = PreparedCycle {
        kernel,
        n,
        window: given.window,
        events: &folded,
    };
    periodic_prepared::execute_prepared_periodic_steady_state(&cycle, tolerance, amounts, residual)
}

// The amounts of a periodic steady state at the start of the cycle, with the residuals of the run from them: 5, 1, 2, then the closed cycle.
pub fn periodic_steady_state(
    kernel: LinearPk,
    window: Window,
    events: &[Event],
    samples: &[f64],
    tolerance: SteadyStateTolerance,
    amounts: &mut [f64],
    residual: &mut [f64],
) -> Result<f64, Stop>
    ensures result_value { steady_reply result ≡ steady_report_of (steady_entry kernel window samples.now events.now tolerance
        (steady_room kernel (length amounts.old) (length residual.old))) }
    ensures amounts_after { amounts.new ≡ answer_at_exit (λ s. s.amounts) (steady_entry kernel window
        samples.now events.now tolerance (steady_room kernel (length amounts.old)
        (length residual.old))) amounts.old }
    ensures residual_after { residual.new ≡ answer_at_exit (λ s. s.residuals) (steady_entry kernel window
        samples.now events.now tolerance (steady_room kernel (length amounts.old)
        (length residual.old))) residual.old }
{
    if events.len() > CYCLE_EVENTS {
        return Err(Stop::from(Refusal::Limit));
    }
    if samples.len() > SAMPLES {
        return Err(Stop::from(Refusal::Limit));
    }
    let given = GivenCycle {
        window,
        samples,
        events,
    };
    linear_pk::check(kernel)?;
    closed(kernel, &given, tolerance, amounts, residual)
}
