#![tactic(auto)]
// The definition of the walk, and what an accepted walk lists (specs/ and proofs/). No code.
