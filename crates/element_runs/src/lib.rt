#![tactic(auto)]
// Runs of elements: tested and counted, what they begin with, and by their addresses alone.

pub mod count;
pub mod defined;
pub mod step;
