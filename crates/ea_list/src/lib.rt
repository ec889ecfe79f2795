#![tactic(auto)]
// The chunk list of an extensible array.
ghost use Rattle.std.specs.Prelude.{◌≡◌, ℕ, ◌/◌, ◌<◌, length, Ok};
ghost use Rattle.refusal.specs.Outcome.{in_room};
ghost use Rattle.refusal.specs.Values.{counted_of};
ghost use Rattle.chunk_grid.specs.Values.{grid_of};
ghost use Rattle.index.specs.ExactList.{ExactList};
ghost use Rattle.records.specs.Records.{record_length, list_content, records_in};
ghost use Rattle.located.specs.Located.{index_of};
ghost use Rattle.ea_blocks.specs.Array.{array_from};
ghost use Rattle.ea_walk.specs.Walk.{located, list as chunk_list, elements_in};

use chunk_grid::ChunkGrid;
use ea_header::ExtensibleArrayHeader;
use ea_index::ArrayIndex;
use refusal::Refusal;
use walked_index::list::list_chunks;

pub mod call;

// Lists the chunks of a dataset: one record for each, in slot order, from the start of the lent list on. `header` is
// the header of its index, element_bytes the bytes of one of its elements. A list that is too small, like every other
// refusal, is left as it was.
pub fn read_extensible_array_chunks(
    file: &[u8],
    header: ExtensibleArrayHeader,
    grid: ChunkGrid,
    element_bytes: u64,
    offset_size: u64,
    list: &mut [u8],
) -> Result<u64, Refusal>
    ensures { let a = array_from file.now header offset_size in
        let e = elements_in file.now header offset_size (grid_of grid) element_bytes in
        let answer = in_room (chunk_list a e) (length list.old / record_length grid.rank) in
        (result ≡ counted_of answer)
        × (list.new ≡ list_content answer list.old)
        × ((n : ℕ) → result ≡ Ok n → 0 < grid.rank
        → ExactList (index_of (located a e)) (records_in grid.rank n list.new) n) }
{
    let index = ArrayIndex::from_header(header, offset_size);
    list_chunks(file, index, grid, element_bytes, list)
}
