// The marks of the infusions that resets have stopped.
ghost use Rattle.std.specs.Prelude.{◌≡◌, ◌≤◌, ◌++◌, length, drop};
ghost use Rattle.protocol.specs.Events.{running};
ghost use Rattle.protocol.specs.Schedule.{marked};
ghost use Rattle.events_at.specs.At.{stops_at, marked_by};

use protocol::Event;

// A reset at t that stops the infusions on its target.
#[tactic(auto, unfolding(crate::specs::At::stops_at))]
fn stops_at(t: f64, event: &Event) -> bool
    ensures { result ≡ stops_at t event.now }
{
    matches!(event, Event::Reset { time, stops, .. } if (*time == t) & *stops)
}

// An infusion on the target with time < t < end.
#[tactic(auto, unfolding(protocol::specs::Events::running))]
fn runs(t: f64, target: usize, event: &Event) -> bool
    ensures { result ≡ running t target event.now }
{
    matches!(
        event,
        Event::Infusion { time, target: i, duration, .. }
            if (target == *i) & ((*time < t) & (t < *time + *duration))
    )
}

// The infusions that run on the target at t are marked; marks behind those of the events stay.
fn mark_by(events: &[Event], t: f64, target: usize, marks: &mut [bool])
    requires { length events.now ≤ length marks.old }
    ensures { marks.new ≡ marked_by t target events.now marks.old ++ drop (length events.now) marks.old }
{
    // By index: tried as a zip with `iter_mut`, whose invariant names nothing that the marks hold, so that the proof did not close.
    for (i, event) in events.iter().enumerate() {
        marks[i] |= runs(t, target, event);
    }
}

// Each stopping reset at t marks the infusions that run on its target; marks behind those of the events stay.
pub fn mark(events: &[Event], t: f64, marks: &mut [bool])
    requires { length events.now ≤ length marks.old }
    ensures { marks.new ≡ marked t events.now marks.old ++ drop (length events.now) marks.old }
{
    for event in events {
        if stops_at(t, event) {
            mark_by(events, t, event.target(), marks);
        }
    }
}
