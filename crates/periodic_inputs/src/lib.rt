// What the inner runs of a closed cycle start from: the divided budgets, the zeroed list, the unit amounts.
#![tactic(auto)]

ghost use Rattle.std.specs.Prelude.{◌≡◌, length, ◌≤◌, ◌<◌};
ghost use Rattle.limits.specs.Limits.{states, most_events};
ghost use Rattle.cycle.specs.Closed.{divided as dividedOf, zeroed as zeroedOf, homogeneous as homogeneousOf, unit as unit_of};

use limits::STATES;
use protocol::{Event, EventList, Window};

// Each budget divided by n + 2.
#[tactic(auto, unfolding(cycle::specs::Closed::divided))]
pub fn divided(n: usize, window: Window) -> Window
    requires { n ≤ states }
    ensures { result ≡ dividedOf n window }
{
    let passes = n + 2;
    Window {
        propagations: window.propagations / (passes as u64),
        events: window.events / passes,
        outputs: window.outputs / passes,
        ..window
    }
}

// The event with its dose or reset value zeroed.
#[tactic(auto, unfolding(cycle::specs::Closed::zeroed))]
fn zeroed(event: &Event) -> Event
    ensures { result ≡ zeroedOf event.now }
{
    match *event {
        Event::Bolus { time, target, .. } => Event::Bolus {
            time,
            target,
            amount: 0.0,
        },
        Event::Infusion {
            time,
            target,
            duration,
            ..
        } => Event::Infusion {
            time,
            target,
            amount: 0.0,
            duration,
        },
        Event::Reset {
            time,
            target,
            order,
            stops,
            ..
        } => Event::Reset {
            time,
            target,
            value: 0.0,
            order,
            stops,
        },
    }
}

// The list with doses and reset values zeroed.
pub fn homogeneous(events: &[Event], list: &mut EventList)
    requires { length events.now ≤ most_events }
    ensures { list.new.items ≡ homogeneousOf events.now }
{
    list.clear();
    for event in events {
        list.push(zeroed(event));
    }
}

// One amount of 1.
#[tactic(auto, unfolding(cycle::specs::Closed::unit))]
pub fn unit(j: usize) -> [f64; STATES]
    requires { j < states }
    ensures { result ≡ unit_of states j }
{
    let mut amounts = [0.0f64; STATES];
    amounts[j] = 1.0;
    amounts
}
