// A cycle as it is given.
ghost use Rattle.std.specs.Prelude.{◌≤◌, length};
ghost use Rattle.limits.specs.Limits.{most_cycle_events};

use protocol::{Event, Window};

// The window, samples and events of a cycle, and no more events than a cycle may have.
#[derive(Clone, Copy)]
pub struct GivenCycle<'a> {
    pub window: Window,
    pub samples: &'a [f64],
    pub events: &'a [Event],
    ghost few: { length events.now ≤ most_cycle_events },
}
