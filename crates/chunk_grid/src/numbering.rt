// What the slots of a chunk grid are numbered by.
ghost use Rattle.chunk_grid.specs.Grid.{Grid};
ghost use Rattle.chunk_grid.specs.Values.{Describes};

use crate::ChunkGrid;

// What the slots of a grid are numbered by. Its rank and its chunk are those of `grid`. (Made once for many slots.)
#[derive(Clone, Copy)]
pub struct Numbering<'a> {
    pub grid: &'a ChunkGrid,
    // The dimension in front of the grid's order.
    pub rotated: u64,
    // Whether any slot is numbered at all.
    pub numbers: bool,
    // For each dimension its chunk count, and how many chunks its present extent reaches into.
    pub counts: [u64; 32],
    pub bound: [u64; 32],
    // The multipliers, in the grid's order.
    pub down: [u64; 32],
    // Some grid that passes its test has these numbers. (Its extents may be such that 64 bits don't hold.)
    pub ghost described: { ∥ ((g : Grid)
        × Describes grid.now.rank rotated numbers grid.now.chunk counts bound down g) ∥₁ },
}
