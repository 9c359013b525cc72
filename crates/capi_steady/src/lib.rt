// The closed cycle of events that are laid out as words, six to an event, for the C interface.
// By the C interface: C gives these one by one, and they part at once, as words become events; a struct would live for that call.
#![tactic(auto)]

ghost use Rattle.std.specs.Prelude.{◌≡◌, length};
ghost use Rattle.cycle.specs.Closed.{steady_report_of, answer_at_exit};
ghost use Rattle.periodic_acceptance.specs.Entry.{steady_room, steady_reply};
ghost use Rattle.capi_steady.specs.Words.{steady_words};

use cycle::SteadyStateTolerance;
use linear_pk::LinearPk;
use periodic_acceptance::Stop;
use protocol::Window;
use refusal::Refusal;

// 40 where the words are no events, else the library's closed cycle of them.
#[tactic(auto, using(crate::proofs::Words::read_in), unfolding(crate::specs::Words::steady_words))]
pub fn steady_words(
    kernel: LinearPk,
    window: Window,
    events: &[u64],
    samples: &[f64],
    tolerance: SteadyStateTolerance,
    amounts: &mut [f64],
    residual: &mut [f64],
) -> Result<f64, Stop>
    ensures result_value { steady_reply result ≡ steady_report_of (steady_words kernel window samples.now events.now tolerance
        (steady_room kernel (length amounts.old) (length residual.old))) }
    ensures amounts_after { amounts.new ≡ answer_at_exit (λ s. s.amounts) (steady_words kernel window samples.now
        events.now tolerance (steady_room kernel (length amounts.old) (length residual.old))) amounts.old }
    ensures residual_after { residual.new ≡ answer_at_exit (λ s. s.residuals) (steady_words kernel window samples.now
        events.now tolerance (steady_room kernel (length amounts.old) (length residual.old))) residual.old }
{
    if !events_layout::events_fit(events) {
        return Err(Stop::from(Refusal::Layout));
    }
    let list = events_layout::events_of(events);
    periodic::periodic_steady_state(
        kernel,
        window,
        list.as_slice(),
        samples,
        tolerance,
        amounts,
        residual,
    )
}
