#![tactic(auto)]
// Indexes whose elements lie in a file.

// The slots from some slot on: so many of them have no element, or so many have theirs in the file from a position on.
#[derive(Clone, Copy)]
pub enum Run {
    Gap(u64),
    Elements { pos: u64, slots: u64 },
}
