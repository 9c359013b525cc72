// The rates of the infusions that flow at an instant.
// By fixed memory: rates stand in an array of the most states, the first n of which are a kernel's.
ghost use Rattle.std.specs.Prelude.{◌≡◌, ◌≤◌, take};
ghost use Rattle.limits.specs.Limits.{states};
ghost use Rattle.protocol.specs.Schedule.{flows as flowsOf, infusion_rate, summed};

use limits::STATES;
use protocol::Event;

// An unmarked infusion with time ≤ t < end.
#[tactic(auto, unfolding(protocol::specs::Schedule::flows))]
fn flows(t: f64, event: &Event, marked: bool) -> bool
    ensures { result ≡ flowsOf t event.now marked }
{
    matches!(
        event,
        Event::Infusion { time, duration, .. } if !marked & ((*time <= t) & (t < *time + *duration))
    )
}

// Asked of what flows, which is an infusion alone.
// By definition: the rate of another event is 0 in `infusion_rate` too, so that the contract holds of every event and asks nothing.
#[tactic(auto, unfolding(protocol::specs::Schedule::infusion_rate))]
fn rate_of(event: &Event) -> f64
    ensures { result ≡ infusion_rate event.now }
{
    match event {
        Event::Bolus { .. } => 0.0,
        Event::Infusion {
            amount,
            duration,
            ..
        } => *amount / *duration,
        Event::Reset { .. } => 0.0,
    }
}

// The rates of n states from t on, in list order.
pub fn summed_rates(events: &[Event], n: usize, t: f64, marks: &[bool]) -> [f64; STATES]
    requires { n ≤ states }
    ensures { take n result ≡ summed n t events.now marks.now }
{
    let mut rates = [0.0f64; STATES];
    for (event, marked) in events.iter().zip(marks) {
        if flows(t, event, *marked) {
            let i = event.target();
            if i < n {
                rates[i] += rate_of(event);
            }
        }
    }
    rates
}
