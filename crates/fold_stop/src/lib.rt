// Whether an infusion of a cycle passes, and its earliest stop among the resets of a list.
// By value: of an infusion its time and target alone are read here, and a struct of the two would be made for one call.
#![tactic(auto)]

ghost use Rattle.std.specs.Prelude.{◌≡◌, cond};
ghost use Rattle.cycle.specs.Fold.{infusion_passes, stopping as stoppingOf, next_time, earlier as earlierOf, stop_of};
ghost use Rattle.binary64.specs.Lists.{any};
ghost use Rattle.protocol.specs.Events.{time as timeOf};

use protocol::Event;

// Whether duration, amount and stop pass 17.
#[tactic(auto, unfolding(cycle::specs::Fold::infusion_passes))]
pub fn infusion_passes(time: f64, amount: f64, duration: f64) -> bool
    ensures { result ≡ infusion_passes time amount duration }
{
    let stop = time + duration;
    binary64::is_positive(duration)
        & (binary64::is_nonnegative(amount) & (binary64::is_finite(stop) & (time < stop)))
}

// A stopping reset on the target.
#[tactic(auto, unfolding(cycle::specs::Fold::stopping))]
pub fn stopping(target: usize, event: &Event) -> bool
    ensures { result ≡ stoppingOf target event.now }
{
    matches!(event, Event::Reset { target: j, stops, .. } if *stops & (target == *j))
}

// A reset's time if later than the infusion's, else plus a period.
pub fn next_time(period: f64, time: f64, reset: f64) -> f64
    ensures { result ≡ next_time period time reset }
{
    if time < reset { reset } else { reset + period }
}

// The reset's next time if that is after the infusion's time and earlier than the stop so far.
pub fn earlier(time: f64, next: f64, stop: f64) -> f64
    ensures { result ≡ earlierOf time next stop }
{
    if (time < next) & (next < stop) {
        next
    } else {
        stop
    }
}

// Whether the list has a stopping reset on the target.
pub fn has_stop(target: usize, events: &[Event]) -> bool
    ensures { result ≡ any (stoppingOf target) events.now }
{
    events.iter().any(|event| stopping(target, event))
}

// The stop so far, or the event's next time if it is an earlier stopping reset.
fn stopped_by(period: f64, time: f64, target: usize, stop: f64, event: &Event) -> f64
    ensures { result ≡ cond (stoppingOf target event.now) (earlierOf time (next_time period time (timeOf event.now)) stop) stop }
{
    if stopping(target, event) {
        return earlier(time, next_time(period, time, event.time()), stop);
    }
    stop
}

// The earliest of `until` and the next stopping resets on the target.
pub fn stop_of(period: f64, time: f64, target: usize, until: f64, events: &[Event]) -> f64
    ensures { result ≡ stop_of period time target until events.now }
{
    let mut stop = until;
    for event in events {
        stop = stopped_by(period, time, target, stop, event);
    }
    stop
}
