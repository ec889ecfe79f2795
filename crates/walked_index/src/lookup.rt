// The lookup in any kind of index.
ghost use Rattle.std.specs.Prelude.{◌≡◌, ℕ, Ok};
ghost use Rattle.refusal.specs.Refusals.{◌then◌};
ghost use Rattle.refusal.specs.Outcome.{◌yields◌};
ghost use Rattle.chunk_grid.specs.Grid.{Grid, grid_test, corner_test, slot_of};
ghost use Rattle.chunk_grid.specs.Values.{grid_of};
ghost use Rattle.elements.specs.Values.{elements_of, found_of, Reads};
ghost use Rattle.located.specs.Located.{index_of, slot_path};
ghost use Rattle.walked_index.specs.Walked.{elements_read};
ghost use Rattle.walked_index.specs.Answered.{Answered, Agreed};

use crate::WalkedIndex;
use chunk_grid::ChunkGrid;
use chunk_slots::{corner_test, slot_of};
use elements::ElementReader;
use elements::read::read_element;
use index::Entry;
use refusal::Refusal;

// Looks up the chunk at a corner. Its refusals come in this order: 3 to 8 of the grid, 10 of the corner, those of the
// index's entry and, for a slot below the count, of the structures that lead to its place, then of its element.
// (Not inlined: see list_chunks.)
#[inline(never)]
pub fn lookup_chunk<I: WalkedIndex>(
    file: &[u8],
    index: I,
    grid: ChunkGrid,
    element_bytes: u64,
    corner: &[u64],
) -> Result<Option<Entry>, Refusal>
    ensures { let e = elements_read file.now (I.form index) (grid_of grid) element_bytes (I.count index) in
        let answer = grid_test (grid_of grid) then corner_test (grid_of grid) corner.now then I.entry index file.now
        yields slot_path (I.located index file.now e) (slot_of (grid_of grid) corner.now) in
        (result ≡ found_of answer)
        × Answered answer (index_of (I.located index file.now e)) corner.now result
        × Agreed (grid_test (grid_of grid) yields I.walk index file.now e) (grid_of grid) corner.now result }
{
    let count = index.slot_count();
    grid.test()?;
    corner_test(&grid, corner)?;
    index.test_entry(file)?;
    let numbering = grid.numbering();
    let slot = slot_of(corner, &numbering);
    let form = index.element_form();
    let reader = ElementReader::new(form, count, &numbering, element_bytes);
    slot_path(file, index, &reader, slot)
}

// What the path of a slot below the count finds; no other has one.
fn slot_path<I: WalkedIndex>(
    file: &[u8],
    index: I,
    reader: &ElementReader,
    slot: Option<u64>,
) -> Result<Option<Entry>, Refusal>
    requires { (I.entry index file.now ≡ Ok tt) × (I.form index ≡ reader.now.form)
        × (I.count index ≡ reader.now.count) }
    ensures { (grid : Grid) (n : ℕ) → Reads reader.now grid n
        → result ≡ found_of (slot_path (I.located index file.now (elements_of file.now reader.now grid n)) slot) }
{
    let Some(s) = slot else {
        return Ok(None);
    };
    if reader.count <= s {
        return Ok(None);
    }
    match index.path_of(file, s)? {
        None => Ok(None),
        Some(pos) => read_element(file, pos as usize, s, reader),
    }
}
