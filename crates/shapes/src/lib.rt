#![tactic(auto)]
// Shapes and corners as bytes: read, and made into a grid.
ghost use Rattle.std.specs.Prelude.{◌≡◌, ◌≤◌, length, []};
ghost use Rattle.std.specs.Option.{is_some, unwrap_or, option_copied, option_map};
ghost use Rattle.std.proofs.lemmas.List.Edits.{sets};
ghost use Rattle.chunk_grid.specs.Grid.{given};
ghost use Rattle.chunk_grid.specs.Values.{grids, built};
ghost use Rattle.shapes.specs.Shapes.{shape_of};

use chunk_grid::{ChunkGrid, GridOrder};
use fields::bytes::read_u64_le;
use refusal::Refusal;

// The grid of shapes that are given as bytes.
pub fn grid_from_bytes(
    rank: u64,
    chunk: &[u8],
    present: &[u8],
    maximum: Option<&[u8]>,
    order: GridOrder,
) -> Result<ChunkGrid, Refusal>
    ensures { let m = option_map (shape_of rank) (option_copied maximum.entry) in
        grids result
        ≡ built (given rank (shape_of rank chunk.now) (shape_of rank present.now) (is_some m) (unwrap_or m []) order) }
{
    if 32 < rank {
        return Err(Refusal::Rank);
    }
    let mut lengths = [0u64; 32];
    let mut extents = [0u64; 32];
    let mut limits = [0u64; 32];
    let n = read_shape(&mut lengths, rank, chunk) as usize;
    let p = read_shape(&mut extents, rank, present) as usize;
    let maximum = match maximum {
        Some(bytes) => {
            let m = read_shape(&mut limits, rank, bytes) as usize;
            Some(&limits[..m])
        }
        None => None,
    };
    ChunkGrid::new(rank, &lengths[..n], &extents[..p], maximum, order)
}

// Reads a shape or corner, 8 bytes a dimension, and answers its rank: another one where there aren't 8 * rank bytes.
pub fn read_shape(shape: &mut [u64], rank: u64, bytes: &[u8]) -> u64
    requires { (rank ≤ 32) × (32 ≤ length shape.old) }
    ensures { (result ≡ length (shape_of rank bytes.now))
        × (shape.new ≡ sets shape.old 0 (shape_of rank bytes.now)) }
{
    let n = rank as usize;
    if bytes.len() != 8 * n {
        if n == 0 {
            shape[0] = 0;
            return 1;
        }
        return 0;
    }
    // The first i numbers are read.
    for (i, number) in shape[..n].iter_mut().enumerate() {
        *number = read_u64_le(bytes, 8 * i);
    }
    rank
}
