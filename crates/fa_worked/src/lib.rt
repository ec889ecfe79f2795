#![tactic(auto)]
// Small files that the definitions are computed on; no code.
