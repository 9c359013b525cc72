// `prepare_simulation`: 13, 10, 11, 12 event by event, 14.
// By count: n is how many states a kernel has, beside which no array stands.
// By the tests: a fold tests other events under the same window, and a closed cycle runs without samples on another window.
#![tactic(auto)]

pub mod admission;

ghost use Rattle.std.specs.Prelude.{◌≡◌, ◌≤◌, length};
ghost use Rattle.limits.specs.Limits.{states, most_events};
ghost use Rattle.refusal.specs.Numbers.{reply_number};
ghost use Rattle.protocol.specs.Prepare.{reckoned, prepare};
ghost use Rattle.preparation.specs.Preparation.{option_number, prepare_entry};

use limits::{EVENTS, SAMPLES};
use linear_pk::LinearPk;
use protocol::{Event, Window};
use refusal::Refusal;

// The most rows that a run has: at an event and at its end two each, one a sample, two at the ends.
pub fn reckoned_rows(samples: &[f64], events: &[Event]) -> usize
    ensures { result ≡ reckoned samples.now events.now }
{
    4 * events.len() + samples.len() + 2
}

// Whether a run of n states takes the list: 13, 10, 11, 12, 14.
#[tactic(auto, unfolding(protocol::specs::Prepare::prepare))]
pub fn prepared(n: usize, window: Window, samples: &[f64], events: &[Event]) -> Result<(), Refusal>
    requires { (n ≤ states) × (length events.now ≤ most_events) }
    ensures { reply_number result ≡ option_number (prepare n window samples.now events.now) }
{
    if events.len() > window.events {
        return Err(Refusal::EventBudget);
    }
    preparation_validation::validate(n, window, samples, events)?;
    let rows = reckoned_rows(samples, events);
    if rows * n > window.outputs {
        return Err(Refusal::OutputBudget);
    }
    Ok(())
}

// Whether a run of the kernel takes the events: 5, the kernel's own 1 and 2, then 13, 10, 11, 12, 14.
#[tactic(auto, unfolding(crate::specs::Preparation::prepare_entry))]
pub fn prepare_simulation(
    kernel: LinearPk,
    window: Window,
    events: &[Event],
    samples: &[f64],
) -> Result<(), Refusal>
    ensures { reply_number result ≡ option_number (prepare_entry kernel window samples.now events.now) }
{
    if events.len() > EVENTS || samples.len() > SAMPLES {
        return Err(Refusal::Limit);
    }
    linear_pk::check(kernel)?;
    prepared(kernel.state_count(), window, samples, events)
}
