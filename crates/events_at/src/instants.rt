// Whether a list has an event, or an infusion's end, at an instant.
ghost use Rattle.std.specs.Prelude.{◌≡◌};
ghost use Rattle.protocol.specs.Events.{has_event};
ghost use Rattle.events_at.specs.At.{happens};

use protocol::Event;

// Whether the event, or its end, is at t.
#[tactic(auto, using(events_times::proofs::Either::or_none))]
fn happens_at(t: f64, event: &Event) -> bool
    ensures { result ≡ happens t event.now }
{
    match event {
        Event::Bolus { time, .. } => *time == t,
        Event::Infusion { time, duration, .. } => (*time == t) | (*time + *duration == t),
        Event::Reset { time, .. } => *time == t,
    }
}

pub fn has_event(events: &[Event], t: f64) -> bool
    ensures { result ≡ has_event t events.now }
{
    events.iter().any(|event| happens_at(t, event))
}
