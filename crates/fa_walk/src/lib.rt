#![tactic(auto)]
// What the list and the lookup of a fixed array are: definitions, and laws about them.
