// Single steps at a boundary: the state is checked, or a reset or a bolus is applied and the state checked.
// By fixed memory: the amounts are the first n of an array of the most states, since there is no heap.
#![tactic(auto)]

ghost use Rattle.std.specs.Prelude.{◌≡◌, ◌≤◌, take, [], ◌∷◌};
ghost use Rattle.limits.specs.Limits.{states};
ghost use Rattle.binary64.specs.Doubles.{nonnegative};
ghost use Rattle.binary64.specs.Lists.{all};
ghost use Rattle.protocol.specs.Execute.{dosed as dosedOf, dosed_amounts};
ghost use Rattle.protocol.specs.Schedule.{check, apply};
ghost use Rattle.doses_steps.specs.Takes.{checked_with, Takes};

use limits::STATES;
use protocol::Event;
use refusal::Refusal;
use rows::{Progress, Stopped};

// A time t of a run of n states.
#[derive(Clone, Copy)]
pub struct Instant {
    pub n: usize,
    pub t: f64,
    ghost within: { n ≤ states },
}

// Whether each of the n amounts is finite and at least 0.
pub fn check_state(n: usize, amounts: [f64; STATES]) -> bool
    requires { n ≤ states }
    ensures { result ≡ all nonnegative (take n amounts) }
{
    let state = &amounts[..n];
    binary64::all_nonnegative(state)
}

// What the event makes of its target's amount.
#[tactic(auto, unfolding(protocol::specs::Execute::dosed))]
fn dosed(event: &Event, x: f64) -> f64
    ensures { result ≡ dosedOf event.now x }
{
    match event {
        Event::Bolus { amount, .. } => x + *amount,
        Event::Infusion { .. } => x,
        Event::Reset { value, .. } => *value,
    }
}

// The event applied to the n amounts.
pub fn dose(event: &Event, n: usize, amounts: [f64; STATES]) -> [f64; STATES]
    requires { n ≤ states }
    ensures { take n result ≡ dosed_amounts event.now (take n amounts) }
{
    let i = event.target();
    if i < n {
        let mut next = amounts;
        next[i] = dosed(event, next[i]);
        return next;
    }
    amounts
}

// On with these amounts, or 31 at t.
fn tested(at: Instant, start: Progress, amounts: [f64; STATES]) -> Result<Progress, Stopped>
    ensures { result ≡ checked_with at.n at.t start amounts }
{
    let p = start.with_amounts(amounts);
    if check_state(at.n, amounts) {
        return Ok(p);
    }
    Err(p.stopped_by(Refusal::State, at.t))
}

// The state at t is checked.
pub fn check_at(at: Instant, start: Progress) -> Result<Progress, Stopped>
    ensures { Takes at.n start (check at.t ∷ []) result }
{
    let amounts = start.amounts;
    tested(at, start, amounts)
}

// A reset or a bolus at t, and the state checked.
pub fn apply_one(event: &Event, at: Instant, start: Progress) -> Result<Progress, Stopped>
    ensures { Takes at.n start (apply at.t event.now ∷ []) result }
{
    let amounts = start.amounts;
    let next = dose(event, at.n, amounts);
    tested(at, start, next)
}
