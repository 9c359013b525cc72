// The doses of a boundary: the resets by order, the boluses in list order, each checked.
#![tactic(auto)]

pub mod resets;

ghost use Rattle.std.specs.Prelude.{◌≡◌, Bool, map, ◌++◌, ◌≤◌, length};
ghost use Rattle.std.specs.Fn.{FnReturnsAt};
ghost use Rattle.binary64.specs.Lists.{filter};
ghost use Rattle.limits.specs.Limits.{most_events};
ghost use Rattle.protocol.specs.Events.{is_bolus, resets, boluses};
ghost use Rattle.protocol.specs.Schedule.{apply};
ghost use Rattle.doses_steps.specs.Takes.{Takes};

use doses_steps::Instant;
use protocol::Event;
use rows::{Progress, Stopped};

// A boundary of a run: the run's events, of which those at its time are applied.
#[derive(Clone, Copy)]
pub struct Boundary<'a> {
    pub events: &'a [Event],
    pub at: Instant,
    ghost few: { length events.now ≤ most_events },
}

#[tactic(auto, unfolding(protocol::specs::Events::is_bolus))]
fn is_bolus(t: f64, event: &Event) -> bool
    ensures { result ≡ is_bolus t event.now }
{
    match event {
        Event::Bolus { time, .. } => *time == t,
        Event::Infusion { .. } => false,
        Event::Reset { .. } => false,
    }
}

// The events that pass the test, in turn.
fn apply_where<F: Fn(&Event) -> bool>(
    test: F,
    events: &[Event],
    at: Instant,
    start: Progress,
) -> Result<Progress, Stopped>
    requires callable { F.IsAlwaysCallable test }
    ensures { (passes : Event → Bool) → ((e : Event) (b : Bool) → FnReturnsAt F.Fn test e b → b ≡ passes e)
        → Takes at.n start (map (apply at.t) (filter passes events.now)) result }
{
    let mut p = start;
    for event in events {
        if test(event) {
            p = doses_steps::apply_one(event, at, p)?;
        }
    }
    Ok(p)
}

// The resets at the boundary by order.
fn apply_resets(boundary: &Boundary<'_>, start: Progress) -> Result<Progress, Stopped>
    ensures { Takes boundary.now.at.n start (map (apply boundary.now.at.t) (resets boundary.now.at.t boundary.now.events.now)) result }
{
    let Boundary { events, at } = *boundary;
    if !resets::has_reset(events, at.t) {
        return Ok(start);
    }
    let listed = resets::resets_at(events, at.t);
    apply_where(|_| true, listed.as_slice(), at, start)
}

// The resets at the boundary by order, then the boluses in list order.
pub fn apply_events(boundary: &Boundary<'_>, start: Progress) -> Result<Progress, Stopped>
    ensures { Takes boundary.now.at.n start (map (apply boundary.now.at.t)
        (resets boundary.now.at.t boundary.now.events.now ++ boluses boundary.now.at.t boundary.now.events.now)) result }
{
    let p = apply_resets(boundary, start)?;
    let Boundary { events, at } = *boundary;
    apply_where(|event| is_bolus(at.t, event), events, at, p)
}
