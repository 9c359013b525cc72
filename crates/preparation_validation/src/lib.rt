// The tests of a window with its samples and events: 10, 11, 12 event by event.
// By count: n is how many states a kernel has, beside which no array stands.
// By the tests: a fold tests other events under the same window, and a closed cycle runs without samples on another window.
#![tactic(auto)]

ghost use Rattle.std.specs.Prelude.{◌≡◌, [], reverse};
ghost use Rattle.binary64.specs.Lists.{all};
ghost use Rattle.protocol.specs.Prepare.{validate as validateOf, within as withinOf, event_values_pass, event_passes, events_pass, window_passes};
ghost use Rattle.preparation_validation.specs.Seen.{repeated};
ghost use Rattle.refusal.specs.Numbers.{reply_number};
ghost use Rattle.preparation_validation.specs.Validation.{option_number};

use protocol::{Event, Window};
use refusal::Refusal;

// Finite and in the window, ends included.
pub fn within(window: Window, time: f64) -> bool
    ensures { result ≡ withinOf window time }
{
    binary64::is_finite(time) & ((window.start <= time) & (time <= window.end))
}

// Whether both are resets, of one time and one order.
fn same_reset(reset: &Event, event: &Event) -> bool
    ensures { result ≡ repeated reset.now event.now }
{
    match (reset, event) {
        (
            Event::Reset { time, order, .. },
            Event::Reset {
                time: t,
                order: o,
                ..
            },
        ) => (*t == *time) & (*o == *order),
        _ => false,
    }
}

// An event's values, with the events ahead of it.
fn values_pass(window: Window, seen: &[Event], event: &Event) -> bool
    ensures { result ≡ event_values_pass window (reverse seen.now) event.now }
{
    match event {
        Event::Bolus { amount, .. } => binary64::is_nonnegative(*amount),
        Event::Infusion {
            time,
            amount,
            duration,
            ..
        } => {
            let end = *time + *duration;
            binary64::is_nonnegative(*amount)
                & (binary64::is_positive(*duration)
                    & ((*time < end)
                        & ((end <= window.end) & binary64::is_finite(*amount / *duration))))
        }
        Event::Reset { value, .. } => {
            binary64::is_finite(*value) & !seen.iter().any(|other| same_reset(event, other))
        }
    }
}

// Whether an event passes 12, with the events ahead of it.
fn event_passes(n: usize, window: Window, seen: &[Event], event: &Event) -> bool
    ensures { result ≡ event_passes n window (reverse seen.now) event.now }
{
    within(window, event.time()) & ((event.target() < n) & values_pass(window, seen, event))
}

pub fn events_pass(n: usize, window: Window, events: &[Event]) -> bool
    ensures { result ≡ events_pass n window [] events.now }
{
    (0..events.len()).all(|i| event_passes(n, window, &events[..i], &events[i]))
}

// Ends finite and increasing, tolerances finite and above 0.
fn window_passes(window: Window) -> bool
    ensures { result ≡ window_passes window }
{
    binary64::is_finite(window.start)
        & (binary64::is_finite(window.end)
            & ((window.start < window.end)
                & (binary64::is_positive(window.rtol) & binary64::is_positive(window.atol))))
}

fn all_within(window: Window, samples: &[f64]) -> bool
    ensures { result ≡ all (withinOf window) samples.now }
{
    samples.iter().all(|sample| within(window, *sample))
}

// Whether window, samples and events pass for n states: 10, 11, 12.
pub fn validate(n: usize, window: Window, samples: &[f64], events: &[Event]) -> Result<(), Refusal>
    ensures { reply_number result ≡ option_number (validateOf n window samples.now events.now) }
{
    if !window_passes(window) {
        return Err(Refusal::Window);
    }
    if !all_within(window, samples) {
        return Err(Refusal::Sample);
    }
    if !events_pass(n, window, events) {
        return Err(Refusal::Event);
    }
    Ok(())
}
