// One column of a system reduced: its table made anew, its right side with it; back substitution.
#![tactic(auto)]

pub mod right;
pub mod substitution;
pub mod table;
