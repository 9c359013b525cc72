// Constant-coefficient mammillary kinetics with one to three compartments and an optional depot.
#![tactic(auto)]

mod advance;
mod bind;
mod concentrations;
mod kernel;

pub use bind::BoundLinearPk;
pub use kernel::{LinearPk, check};
