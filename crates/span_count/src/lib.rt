#![tactic(auto)]
// The spans of an index: each structure's span, its tests, and the walk that tests and counts.
pub mod count;
pub mod spans;
pub mod tests;
