// A system, its entries, and the pivot of a column.
#![tactic(auto)]

ghost use Rattle.std.specs.Prelude.{◌≤◌};
ghost use Rattle.limits.specs.Limits.{states};

use limits::STATES;

pub mod entries;
pub mod pivot;

// The system matrix·x = right, of which the first n rows and columns are in use.
#[derive(Clone, Copy)]
pub struct System {
    pub n: usize,
    pub matrix: [[f64; STATES]; STATES],
    pub right: [f64; STATES],
    ghost within: { n ≤ states },
}
