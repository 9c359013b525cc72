// Square matrices.
// By fixed memory: they are arrays of a fixed width, since there is no heap, and the rows and columns in use stand beside them.
#![tactic(auto)]

pub mod row;
