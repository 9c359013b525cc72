// The types of a run.
#![tactic(auto)]

ghost use Rattle.std.specs.Prelude.{◌≡◌};
ghost use Rattle.protocol.specs.Events.{time as time_of, target as target_of, no_event};

use arrayvec::ArrayVec;
use limits::EVENTS;

// An event of a list. A target is the index of a state.
#[derive(Clone, Copy)]
pub enum Event {
    Bolus {
        time: f64,
        target: usize,
        amount: f64,
    },
    Infusion {
        time: f64,
        target: usize,
        amount: f64,
        duration: f64,
    },
    // `stops`: whether it stops the running infusions of its target.
    Reset {
        time: f64,
        target: usize,
        value: f64,
        order: u16,
        stops: bool,
    },
}

impl Event {
    pub fn time(&self) -> f64
        ensures { result ≡ time_of self.now }
    {
        match self {
            Event::Bolus { time, .. } => *time,
            Event::Infusion { time, .. } => *time,
            Event::Reset { time, .. } => *time,
        }
    }

    #[tactic(auto, unfolding(crate::specs::Events::target))]
    pub fn target(&self) -> usize
        ensures { result ≡ target_of self.now }
    {
        match self {
            Event::Bolus { target, .. } => *target,
            Event::Infusion { target, .. } => *target,
            Event::Reset { target, .. } => *target,
        }
    }
}

// What a list holds past its last event.
// By hand: a derive takes a variant without values, and each has some.
impl Default for Event {
    fn default() -> Event
        ensures { result ≡ no_event }
    {
        Event::Bolus {
            time: 0.0,
            target: 0,
            amount: 0.0,
        }
    }
}

// A list of events that the code owns, with no heap.
pub type EventList = ArrayVec<Event, EVENTS>;

// The window of a run, its tolerances and its budgets: advances, events, and values of the rows.
#[derive(Clone, Copy)]
pub struct Window {
    pub start: f64,
    pub end: f64,
    pub rtol: f64,
    pub atol: f64,
    pub propagations: u64,
    pub events: usize,
    pub outputs: usize,
}
