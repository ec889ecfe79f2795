#![tactic(auto)]
// A span, the definition of the walk of an index's spans, and what accepted spans cover (specs/ and proofs/). No code.

// A structure's address and its bytes.
#[repr(C)]
#[derive(Clone, Copy)]
pub struct Span {
    pub address: u64,
    pub length: u64,
}
