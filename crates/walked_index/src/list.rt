// The list of any kind of index.
ghost use Rattle.std.specs.Prelude.{◌≡◌, List, ℕ, ◌/◌, ◌<◌, ◌≤◌, length, Ok};
ghost use Rattle.std.proofs.lemmas.List.Edits.{sets};
ghost use Rattle.refusal.specs.Outcome.{in_room, ◌yields◌};
ghost use Rattle.refusal.specs.Values.{counted_of};
ghost use Rattle.chunk_grid.specs.Grid.{Grid, grid_test};
ghost use Rattle.chunk_grid.specs.Values.{grid_of};
ghost use Rattle.index.specs.Index.{Rec};
ghost use Rattle.index.specs.ExactList.{ExactList};
ghost use Rattle.elements.specs.Values.{elements_of, Reads};
ghost use Rattle.records.specs.Records.{record_length, list_bytes, list_content, records_in};
ghost use Rattle.located.specs.Located.{index_of};
ghost use Rattle.walked_index.specs.Walked.{elements_read, Walked};

use crate::WalkedIndex;
use chunk_grid::ChunkGrid;
use element_runs::count::below_count;
use elements::ElementReader;
use located::Run;
use records::write_elements;
use refusal::Refusal;

// Lists the chunks of a dataset: one record for each, in slot order, from the start of the lent list on. element_bytes
// is the bytes of one of its elements. A list that is too small, like every other refusal, is left as it was.
// (Not inlined, so that reading the grid and this don't need their stack at once.)
#[inline(never)]
pub fn list_chunks<I: WalkedIndex>(
    file: &[u8],
    index: I,
    grid: ChunkGrid,
    element_bytes: u64,
    list: &mut [u8],
) -> Result<u64, Refusal>
    ensures { let e = elements_read file.now (I.form index) (grid_of grid) element_bytes (I.count index) in
        let answer = in_room (grid_test (grid_of grid) yields I.walk index file.now e)
        (length list.old / record_length grid.rank) in
        (result ≡ counted_of answer)
        × (list.new ≡ list_content answer list.old)
        × ((n : ℕ) → result ≡ Ok n → 0 < grid.rank
        → ExactList (index_of (I.located index file.now e)) (records_in grid.rank n list.new) n) }
{
    grid.test()?;
    let numbering = grid.numbering();
    let form = index.element_form();
    let reader = ElementReader::new(form, index.slot_count(), &numbering, element_bytes);
    list_walk(list, file, index, &reader)
}

// Walks an index, and writes its records into the list; 9 where it has no room for them.
fn list_walk<I: WalkedIndex>(
    list: &mut [u8],
    file: &[u8],
    index: I,
    reader: &ElementReader,
) -> Result<u64, Refusal>
    requires { (I.form index ≡ reader.now.form) × (I.count index ≡ reader.now.count)
        × ((grid : Grid) × (n : ℕ) × Reads reader.now grid n) }
    ensures { (grid : Grid) (n : ℕ) → Reads reader.now grid n
        → let answer = in_room (I.walk index file.now (elements_of file.now reader.now grid n))
        (length list.old / record_length reader.now.numbering.now.grid.now.rank) in
        (result ≡ counted_of answer) × (list.new ≡ list_content answer list.old) }
{
    let n = index.count_walk(file, reader)?;
    let room = list.len() as u64 / (16 + 8 * reader.numbering.grid.rank);
    if room < n {
        return Err(Refusal::ListTooSmall(n));
    }
    write_walk(list, file, index, reader);
    Ok(n)
}

// Writes the records of an index into the list, from its start on. The index is walked before: nothing is tested again.
fn write_walk<I: WalkedIndex>(list: &mut [u8], file: &[u8], index: I, reader: &ElementReader)
    requires { (l : List Rec) × Walked (I.walk index file.now) (I.form index) (I.count index) file.now reader.now l
        × (length (list_bytes l) ≤ length list.old) }
    ensures { (l : List Rec) → Walked (I.walk index file.now) (I.form index) (I.count index) file.now reader.now l
        → list.new ≡ sets list.old 0 (list_bytes l) }
{
    let mut at = 0;
    let mut slot = 0;
    // The records of the slots before `slot` are written, up to `at`. (By slot: a step is a whole run.)
    while slot < reader.count {
        match index.run_of(file, slot) {
            Run::Gap(slots) => {
                slot += below_count(slots, slot, reader.count);
            }
            Run::Elements { pos, slots } => {
                at = write_elements(list, at, file, pos, slots, slot, reader);
                slot += below_count(slots, slot, reader.count);
            }
        }
    }
}
