// The boundaries of a run.
#![tactic(auto)]

ghost use Rattle.std.specs.Prelude.{◌≡◌, ◌++◌, ◌≤◌, ◌+◌, ◌*◌, T, length, take, drop};
ghost use Rattle.std.specs.Float.{binary64};
ghost use Rattle.std.specs.Float.Ieee.{fits};
ghost use Rattle.binary64.specs.Lists.{all};
ghost use Rattle.protocol.specs.Events.{instants, boundary_times, boundaries as boundariesOf};

use protocol::{Event, Window};

// The event's time, and an infusion's end, in front; how many.
fn lay_event(event: &Event, room: &mut [f64]) -> usize
    requires { 2 ≤ length room.old }
    ensures { (result ≡ length (instants event.now)) × (result ≤ 2) × (room.new ≡ instants event.now ++ drop result room.old) }
{
    room[0] = event.time();
    if let Event::Infusion { time, duration, .. } = event {
        room[1] = *time + *duration;
        return 2;
    }
    1
}

// Start, end, and each event's time and end; how many.
// By the event: an infusion lays two times, another event one; nothing is copied.
fn lay(window: Window, events: &[Event], bounds: &mut [f64]) -> usize
    requires { 2 + 2 * length events.now ≤ length bounds.old }
    ensures { (result ≤ length bounds.new) × (take result bounds.new ≡ boundary_times window.start window.end events.now) }
{
    bounds[0] = window.start;
    bounds[1] = window.end;
    let mut n = 2usize;
    for event in events {
        n += lay_event(event, &mut bounds[n..]);
    }
    n
}

// The boundaries, in order and each once; how many.
// By room: any slice that has it is taken, whatever type a caller keeps its times in.
pub fn boundaries(window: Window, events: &[Event], bounds: &mut [f64]) -> usize
    requires { 2 + 2 * length events.now ≤ length bounds.old }
    ensures { (result ≤ length bounds.new) × (take result bounds.new ≡ boundariesOf window events.now)
        × T (all (fits binary64) (boundary_times window.start window.end events.now)) }
{
    let n = lay(window, events, bounds);
    events_times::sorted_unique(&mut bounds[..n])
}
