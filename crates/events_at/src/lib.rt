// What the events of a list do at a time: which happen there, which infusions a reset marks, the rates that are left.
#![tactic(auto)]

pub mod instants;
pub mod marks;
pub mod rates;
