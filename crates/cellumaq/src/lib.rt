#![tactic(auto)]
// The calls from C: each passes on to the library.
ghost use Rattle.std.specs.Prelude.{◌≡◌, true, List, ℕ, ◌/◌, ◌<◌, length, Ok, Option};
ghost use Rattle.checksum.specs.Lookup3.{lookup3};
ghost use Rattle.chunk_grid.specs.Grid.{is_chunk};
ghost use Rattle.shapes.specs.Shapes.{shape_of};
ghost use Rattle.index.specs.Index.{Rec};
ghost use Rattle.index.specs.ExactList.{ExactList, Answers, Agrees};
ghost use Rattle.records.specs.Records.{record_length, list_content, records_in};
ghost use Rattle.calls.specs.Call.{grid_given, call_of};
ghost use Rattle.calls.specs.Answer.{answered, picked, list_numbers, found_numbers, chunk_names, ZeroAccepts};
ghost use Rattle.ea_calls.specs.Call.{call_index, list_at};
ghost use Rattle.ea_lookup.specs.Call.{lookup_at};
ghost use Rattle.fa_calls.specs.Call.{fixed_call_index, fixed_list_at, fixed_lookup_at};

use calls::{CHUNK_NAMES, Call, counted_number, found_number};
use ea_list::call::list_at;
use ea_lookup::call::lookup_at;
use fa_index::FixedIndex;

// HDF5's metadata checksum of some bytes.
#[unsafe(no_mangle)]
pub extern "C" fn cellumaq_checksum(bytes: &[u8]) -> u32
    ensures { result ≡ lookup3 bytes.now }
{
    checksum::jenkins_lookup3(bytes)
}

// The chunk list of a dataset, into a lent list. Answers the number that `which` asks for: 0, where the refusal is
// asked for, says that the call is accepted. The list holds what it says, and for rank 1 to 32 an accepted list is
// complete and exact.
#[unsafe(no_mangle)]
pub extern "C" fn cellumaq_list(
    file: &[u8],
    offset_size: u64,
    length_size: u64,
    address: u64,
    element_bytes: u64,
    order: u64,
    rank: u64,
    chunk: &[u8],
    present: &[u8],
    has_maximum: u64,
    maximum: &[u8],
    list: &mut [u8],
    which: u64,
) -> u64
    ensures { let grid =
        grid_given order rank chunk.now present.now has_maximum maximum.now in
        let call = call_of file.now offset_size length_size address element_bytes grid in
        let answer = list_at call (length list.old / record_length rank) in
        (result ≡ picked which (answered chunk_names list_numbers answer))
        × ZeroAccepts answer which result
        × (list.new ≡ list_content answer list.old)
        × ((l : List Rec) → answer ≡ Ok l → 0 < rank
        → ExactList (call_index call) (records_in rank (length l) list.new) (length l)) }
{
    let call = Call {
        file,
        offset_size,
        length_size,
        address,
        element_bytes,
        order,
        rank,
        chunk,
        present,
        has_maximum,
        maximum,
    };
    let counted = list_at(&call, list);
    counted_number(which, counted, CHUNK_NAMES)
}

// One chunk of a dataset by its corner. Answers the number that `which` asks for: 0, where the refusal is asked for,
// says that the call is accepted. An accepted answer says what the place of the corner's slot holds, and for rank 1 to
// 32 it agrees with an accepted list.
#[unsafe(no_mangle)]
pub extern "C" fn cellumaq_lookup(
    file: &[u8],
    offset_size: u64,
    length_size: u64,
    address: u64,
    element_bytes: u64,
    order: u64,
    rank: u64,
    chunk: &[u8],
    present: &[u8],
    has_maximum: u64,
    maximum: &[u8],
    corner: &[u8],
    which: u64,
) -> u64
    ensures { let grid =
        grid_given order rank chunk.now present.now has_maximum maximum.now in
        let call = call_of file.now offset_size length_size address element_bytes grid in
        let at = shape_of rank corner.now in
        let answer = lookup_at call at in
        (result ≡ picked which (answered chunk_names found_numbers answer))
        × ZeroAccepts answer which result
        × ((x : Option Rec) → answer ≡ Ok x → Answers (call_index call) at x)
        × ((room : ℕ) (l : List Rec) → 0 < rank → list_at call room ≡ Ok l → is_chunk call.grid at ≡ true
        → (x : Option Rec) × (result ≡ picked which (answered chunk_names found_numbers (Ok x)))
        × Agrees l at x) }
{
    let call = Call {
        file,
        offset_size,
        length_size,
        address,
        element_bytes,
        order,
        rank,
        chunk,
        present,
        has_maximum,
        maximum,
    };
    let found = lookup_at(&call, corner);
    found_number(which, found)
}

// The chunk list of a dataset whose index is a fixed array, whose chunks are numbered in row-major order: what
// cellumaq_list says of an extensible array.
#[unsafe(no_mangle)]
pub extern "C" fn cellumaq_fixed_list(
    file: &[u8],
    offset_size: u64,
    length_size: u64,
    address: u64,
    element_bytes: u64,
    rank: u64,
    chunk: &[u8],
    present: &[u8],
    has_maximum: u64,
    maximum: &[u8],
    list: &mut [u8],
    which: u64,
) -> u64
    ensures { let grid = grid_given 0 rank chunk.now present.now has_maximum maximum.now in
        let call = call_of file.now offset_size length_size address element_bytes grid in
        let answer = fixed_list_at call (length list.old / record_length rank) in
        (result ≡ picked which (answered chunk_names list_numbers answer))
        × ZeroAccepts answer which result
        × (list.new ≡ list_content answer list.old)
        × ((l : List Rec) → answer ≡ Ok l → 0 < rank
        → ExactList (fixed_call_index call) (records_in rank (length l) list.new) (length l)) }
{
    let call = Call {
        file,
        offset_size,
        length_size,
        address,
        element_bytes,
        order: 0,
        rank,
        chunk,
        present,
        has_maximum,
        maximum,
    };
    let listed = walked_index::call::list_at::<FixedIndex>(&call, list);
    counted_number(which, listed, CHUNK_NAMES)
}

// One chunk of such a dataset by its corner: what cellumaq_lookup says of an extensible array.
#[unsafe(no_mangle)]
pub extern "C" fn cellumaq_fixed_lookup(
    file: &[u8],
    offset_size: u64,
    length_size: u64,
    address: u64,
    element_bytes: u64,
    rank: u64,
    chunk: &[u8],
    present: &[u8],
    has_maximum: u64,
    maximum: &[u8],
    corner: &[u8],
    which: u64,
) -> u64
    ensures { let grid = grid_given 0 rank chunk.now present.now has_maximum maximum.now in
        let call = call_of file.now offset_size length_size address element_bytes grid in
        let at = shape_of rank corner.now in
        let answer = fixed_lookup_at call at in
        (result ≡ picked which (answered chunk_names found_numbers answer))
        × ZeroAccepts answer which result
        × ((x : Option Rec) → answer ≡ Ok x → Answers (fixed_call_index call) at x)
        × ((room : ℕ) (l : List Rec) → 0 < rank → fixed_list_at call room ≡ Ok l → is_chunk call.grid at ≡ true
        → (x : Option Rec) × (result ≡ picked which (answered chunk_names found_numbers (Ok x)))
        × Agrees l at x) }
{
    let call = Call {
        file,
        offset_size,
        length_size,
        address,
        element_bytes,
        order: 0,
        rank,
        chunk,
        present,
        has_maximum,
        maximum,
    };
    let chunk_found = walked_index::call::lookup_at::<FixedIndex>(&call, corner);
    found_number(which, chunk_found)
}
