#![tactic(auto)]
// Numbers that a file stores.
pub mod address;
pub mod bytes;
pub mod convert;
