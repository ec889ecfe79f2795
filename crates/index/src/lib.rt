#![tactic(auto)]
// What an index is to those who read or write it.

// What a chunk's place holds.
#[derive(Clone, Copy)]
pub struct Entry {
    pub address: u64,
    pub size: u32,
    pub mask: u32,
}
