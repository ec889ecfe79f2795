#![tactic(auto)]
// List and lookup of a fixed array, as the library has them; and what a call from C is answered that is given one.
pub mod list;
pub mod lookup;
