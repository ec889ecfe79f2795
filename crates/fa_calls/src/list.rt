// The chunk list of a fixed array.
ghost use Rattle.std.specs.Prelude.{◌≡◌, ℕ, ◌/◌, ◌<◌, length, Ok};
ghost use Rattle.refusal.specs.Outcome.{in_room};
ghost use Rattle.refusal.specs.Values.{counted_of};
ghost use Rattle.chunk_grid.specs.Values.{grid_of};
ghost use Rattle.index.specs.ExactList.{ExactList};
ghost use Rattle.records.specs.Records.{record_length, list_content, records_in};
ghost use Rattle.located.specs.Located.{index_of};
ghost use Rattle.fa_blocks.specs.FixedArray.{fixed_from};
ghost use Rattle.fa_walk.specs.Walk.{fixed_elements_in, fixed_located, fixed_list};

use chunk_grid::ChunkGrid;
use fa_header::FixedArrayHeader;
use fa_index::FixedIndex;
use refusal::Refusal;
use walked_index::list::list_chunks;

// Lists the chunks of a dataset: one record for each, in slot order, from the start of the lent list on. `header` is
// the header of its index, element_bytes the bytes of one of its elements. A list that is too small, like every other
// refusal, is left as it was.
#[tactic(auto, unfolding(fa_walk::specs::Walk::fixed_list))]
pub fn read_fixed_array_chunks(
    file: &[u8],
    header: FixedArrayHeader,
    grid: ChunkGrid,
    element_bytes: u64,
    offset_size: u64,
    list: &mut [u8],
) -> Result<u64, Refusal>
    ensures { let a = fixed_from file.now header offset_size in
        let e = fixed_elements_in file.now header offset_size (grid_of grid) element_bytes in
        let answer = in_room (fixed_list a e) (length list.old / record_length grid.rank) in
        (result ≡ counted_of answer)
        × (list.new ≡ list_content answer list.old)
        × ((n : ℕ) → result ≡ Ok n → 0 < grid.rank
        → ExactList (index_of (fixed_located a e)) (records_in grid.rank n list.new) n) }
{
    let index = FixedIndex::from_header(header, offset_size);
    list_chunks(file, index, grid, element_bytes, list)
}
