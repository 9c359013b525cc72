// What is ahead of the runs of a closed cycle: its tolerances, the fold, and the preparation on the divided budgets.
// By count: n is how many states a kernel has, beside which no array stands.
#![tactic(auto)]

ghost use Rattle.std.specs.Prelude.{◌≡◌, [], ◌≤◌, OnErr};
ghost use Rattle.limits.specs.Limits.{states};
ghost use Rattle.refusal.specs.Numbers.{result_of};
ghost use Rattle.cycle.specs.Closed.{untimed, tolerance_passes, ready};

use cycle::SteadyStateTolerance;
use fold_events::GivenCycle;
use protocol::EventList;
use refusal::Refusal;

// Absolute finite and above 0, relative finite and not below 0.
#[tactic(auto, unfolding(cycle::specs::Closed::tolerance_passes))]
fn tolerance_passes(tolerance: SteadyStateTolerance) -> bool
    ensures { result ≡ tolerance_passes tolerance }
{
    binary64::is_positive(tolerance.absolute) & binary64::is_nonnegative(tolerance.relative)
}

// 19; the fold; the preparation of its list without samples, on the divided budgets.
fn fold_and_prepare(
    n: usize,
    given: &GivenCycle,
    tolerance: SteadyStateTolerance,
    list: &mut EventList,
) -> Result<(), Refusal>
    requires { n ≤ states }
    ensures { untimed (result_of result list.new.items) ≡ ready n given.now.window given.now.samples.now given.now.events.now tolerance }
{
    if !tolerance_passes(tolerance) {
        return Err(Refusal::Tolerance);
    }
    fold_events::folded(n, given, list)?;
    let budgets = periodic_inputs::divided(n, given.window);
    preparation::prepared(n, budgets, &[], list)
}

// The folded list, prepared; an empty one at a refusal.
pub fn prepare_periodic_steady_state(
    n: usize,
    given: &GivenCycle,
    tolerance: SteadyStateTolerance,
    list: &mut EventList,
) -> Result<(), Refusal>
    requires { n ≤ states }
    ensures ready { untimed (result_of result list.new.items) ≡ ready n given.now.window given.now.samples.now given.now.events.now tolerance }
    ensures refused { OnErr result (list.new.items ≡ []) }
{
    let reply = fold_and_prepare(n, given, tolerance, list);
    fold_events::empty_at_refusal(reply, list)
}
