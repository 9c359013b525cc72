// The types of a closed cycle.
#![tactic(auto)]

// Absolute in the unit of amounts, relative to the larger of the amounts at start and end.
#[derive(Clone, Copy)]
pub struct SteadyStateTolerance {
    pub absolute: f64,
    pub relative: f64,
}
