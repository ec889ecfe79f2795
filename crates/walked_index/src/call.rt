// The list of any kind of index, and the lookup in it, as they are called from C: on numbers and bytes, with the header
// read first.
ghost use Rattle.std.specs.Prelude.{◌≡◌, List, ℕ, ◌/◌, ◌<◌, length, Ok};
ghost use Rattle.refusal.specs.Outcome.{in_room, ◌yields◌};
ghost use Rattle.refusal.specs.Refusals.{◌then◌, Checked};
ghost use Rattle.refusal.specs.Values.{counted_of};
ghost use Rattle.chunk_grid.specs.Grid.{grid_test, corner_test, slot_of};
ghost use Rattle.shapes.specs.Shapes.{shape_of};
ghost use Rattle.index.specs.ExactList.{ExactList};
ghost use Rattle.elements.specs.Values.{found_of};
ghost use Rattle.records.specs.Records.{record_length, list_content, records_in};
ghost use Rattle.located.specs.Located.{index_of, slot_path};
ghost use Rattle.calls.specs.Values.{call_from};
ghost use Rattle.walked_index.specs.Answered.{Answered, Agreed};
ghost use Rattle.walked_index.specs.Walked.{elements_read};

use crate::WalkedIndex;
use crate::list::list_chunks;
use crate::lookup::lookup_chunk;
use calls::Call;
use index::Entry;
use refusal::Refusal;
use shapes::read_shape;

// An index that a header heads.
pub trait HeadedIndex: WalkedIndex {
    // The test of the header in a file at an address, with these sizes of offsets and lengths, and the index that it
    // heads.
    ghost header_test: { List ℕ → ℕ → ℕ → ℕ → Checked };

    ghost headed: { List ℕ → ℕ → ℕ → ℕ → Self };

    // Reads the header.
    fn read(file: &[u8], address: u64, offset_size: u64, length_size: u64) -> Result<Self, Refusal>
        ensures { result ≡ (header_test file.now address offset_size length_size
            yields Ok (headed file.now address offset_size length_size)) };
}

// Reads a call's header and grid, and lists the dataset's chunks.
pub fn list_at<I: HeadedIndex>(call: &Call, list: &mut [u8]) -> Result<u64, Refusal>
    ensures { let given = call_from call.now in
        let i = I.headed given.file given.address given.offset_size given.length_size in
        let e = elements_read given.file (I.form i) given.grid given.element_bytes (I.count i) in
        let answer = I.header_test given.file given.address given.offset_size given.length_size
        yields in_room (grid_test given.grid yields I.walk i given.file e)
        (length list.old / record_length call.now.rank) in
        (result ≡ counted_of answer)
        × (list.new ≡ list_content answer list.old)
        × ((n : ℕ) → result ≡ Ok n → 0 < call.now.rank
        → ExactList (index_of (I.located i given.file e)) (records_in call.now.rank n list.new) n) }
{
    // (By match: what a refused header is answered stands by itself.)
    let index = match I::read(call.file, call.address, call.offset_size, call.length_size) {
        Ok(index) => index,
        Err(refusal) => return Err(refusal),
    };
    let grid = call.read_grid()?;
    list_chunks(call.file, index, grid, call.element_bytes, list)
}

// Reads a call's header and grid, and looks up the chunk at a corner.
pub fn lookup_at<I: HeadedIndex>(call: &Call, corner: &[u8]) -> Result<Option<Entry>, Refusal>
    ensures { let given = call_from call.now in
        let at = shape_of call.now.rank corner.now in
        let i = I.headed given.file given.address given.offset_size given.length_size in
        let e = elements_read given.file (I.form i) given.grid given.element_bytes (I.count i) in
        let test = I.header_test given.file given.address given.offset_size given.length_size in
        let answer = test yields (grid_test given.grid then corner_test given.grid at then I.entry i given.file
        yields slot_path (I.located i given.file e) (slot_of given.grid at)) in
        (result ≡ found_of answer)
        × Answered answer (index_of (I.located i given.file e)) at result
        × ((room : ℕ) → Agreed (test yields in_room (grid_test given.grid yields I.walk i given.file e) room)
        given.grid at result) }
{
    let headed = I::read(call.file, call.address, call.offset_size, call.length_size)?;
    let grid = call.read_grid()?;
    let mut offsets = [0u64; 32];
    let n = read_shape(&mut offsets, call.rank, corner) as usize;
    lookup_chunk(call.file, headed, grid, call.element_bytes, &offsets[..n])
}
