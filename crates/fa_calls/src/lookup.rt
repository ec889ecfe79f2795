// One chunk of a fixed array by its corner.
ghost use Rattle.std.specs.Prelude.{◌≡◌};
ghost use Rattle.chunk_grid.specs.Values.{grid_of};
ghost use Rattle.elements.specs.Values.{found_of};
ghost use Rattle.located.specs.Located.{index_of};
ghost use Rattle.walked_index.specs.Answered.{Answered, Agreed};
ghost use Rattle.fa_blocks.specs.FixedArray.{fixed_from};
ghost use Rattle.fa_walk.specs.Walk.{fixed_elements_in, fixed_located, fixed_list, fixed_lookup};

use chunk_grid::ChunkGrid;
use fa_header::FixedArrayHeader;
use fa_index::FixedIndex;
use index::Entry;
use refusal::Refusal;
use walked_index::lookup::lookup_chunk;

// Looks up the chunk at a corner. Its refusals come in this order: 3 to 8 of the grid, 10 of the corner, 27 of the
// header and, for a slot below the entries, those of the data block, of its page and of its element.
#[tactic(auto, unfolding(fa_walk::specs::Walk::fixed_list, fa_walk::specs::Walk::fixed_lookup))]
pub fn lookup_fixed_chunk(
    file: &[u8],
    header: FixedArrayHeader,
    grid: ChunkGrid,
    element_bytes: u64,
    offset_size: u64,
    corner: &[u64],
) -> Result<Option<Entry>, Refusal>
    ensures { let a = fixed_from file.now header offset_size in
        let e = fixed_elements_in file.now header offset_size (grid_of grid) element_bytes in
        let answer = fixed_lookup a e corner.now in
        (result ≡ found_of answer)
        × Answered answer (index_of (fixed_located a e)) corner.now result
        × Agreed (fixed_list a e) (grid_of grid) corner.now result }
{
    let index = FixedIndex::from_header(header, offset_size);
    lookup_chunk(file, index, grid, element_bytes, corner)
}
