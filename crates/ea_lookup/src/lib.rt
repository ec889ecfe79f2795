#![tactic(auto)]
// One chunk by its corner.
ghost use Rattle.std.specs.Prelude.{◌≡◌};
ghost use Rattle.chunk_grid.specs.Values.{grid_of};
ghost use Rattle.elements.specs.Values.{found_of};
ghost use Rattle.located.specs.Located.{index_of};
ghost use Rattle.walked_index.specs.Answered.{Answered, Agreed};
ghost use Rattle.ea_blocks.specs.Array.{array_from};
ghost use Rattle.ea_walk.specs.Walk.{located, list, elements_in};
ghost use Rattle.ea_lookup.specs.Lookup.{lookup};

use chunk_grid::ChunkGrid;
use ea_header::ExtensibleArrayHeader;
use ea_index::ArrayIndex;
use index::Entry;
use refusal::Refusal;

pub mod call;

// Looks up the chunk at a corner. Its refusals come in this order: 3 to 8 of the grid, 10 of the corner, 27 of the
// header, those of the index block and, for a slot below the published count, of the structures that lead to its place,
// then of its element.
pub fn lookup_chunk(
    file: &[u8],
    header: ExtensibleArrayHeader,
    grid: ChunkGrid,
    element_bytes: u64,
    offset_size: u64,
    corner: &[u64],
) -> Result<Option<Entry>, Refusal>
    ensures { let a = array_from file.now header offset_size in
        let e = elements_in file.now header offset_size (grid_of grid) element_bytes in
        let answer = lookup a e corner.now in
        (result ≡ found_of answer)
        × Answered answer (index_of (located a e)) corner.now result
        × Agreed (list a e) (grid_of grid) corner.now result }
{
    let index = ArrayIndex::from_header(header, offset_size);
    walked_index::lookup::lookup_chunk(file, index, grid, element_bytes, corner)
}
