#![tactic(auto)]
// The spans of an index: the bytes of its own structures, which are its header, its index block, and every super
// block and data block that is pointed to.
ghost use Rattle.std.specs.Prelude.{◌≡◌, true, min};
ghost use Rattle.refusal.specs.Outcome.{also, in_room};
ghost use Rattle.refusal.specs.Values.{counted_of};
ghost use Rattle.fields.specs.Fields.{is_width};
ghost use Rattle.ea_blocks.specs.Values.{array_in};
ghost use Rattle.span_walk.specs.Walk.{index_spans, spans};
ghost use Rattle.ea_spans.specs.SpanList.{room_of, spans_into, filled, address_of, length_of};

use crate::lists::SpanLists;
use crate::write::write_index;
use ea_blocks::BoundedArray;
use ea_geometry::extents::Extents;
use ea_geometry::sizes::Sizes;
use ea_header::ExtensibleArrayHeader;
use refusal::Refusal;
use span_count::count::count_index;
use span_count::tests::parse_served;
use span_walk::Span;
use structures::header::IndexHeader;

mod lists;
mod write;

// Lists the spans of the index whose header lies at an address: their addresses and their lengths, from number 0 on.
// The answer is how many they are. After a refusal both lists are as they were; 9 tells how many numbers each list
// must hold. (Two lists, as C lends them.)
pub fn extensible_array_index_spans(
    file: &[u8],
    address: u64,
    offset_size: u64,
    length_size: u64,
    addresses: &mut [u64],
    lengths: &mut [u64],
) -> Result<u64, Refusal>
    ensures { let s = spans_into file.now address offset_size length_size
        addresses.old lengths.old in
        (result ≡ counted_of s) × (addresses.new ≡ filled address_of s 0 addresses.old)
        × (lengths.new ≡ filled length_of s 0 lengths.old) }
{
    let limit = addresses.len();
    extensible_array_index_spans_within(
        file,
        address,
        offset_size,
        length_size,
        limit,
        addresses,
        lengths,
    )
}

// The same where no more than `limit` spans have room: 9 tells how many are needed.
pub fn extensible_array_index_spans_within(
    file: &[u8],
    address: u64,
    offset_size: u64,
    length_size: u64,
    limit: usize,
    addresses: &mut [u64],
    lengths: &mut [u64],
) -> Result<u64, Refusal>
    ensures { let s = in_room (spans file.now address offset_size length_size)
        (min (room_of addresses.old lengths.old) limit) in
        (result ≡ counted_of s) × (addresses.new ≡ filled address_of s 0 addresses.old)
        × (lengths.new ≡ filled length_of s 0 lengths.old) }
{
    let header = parse_served(file, address, offset_size, length_size)?;
    let length = ExtensibleArrayHeader::serialized_size(offset_size, length_size);
    let parameters = header.parameters;
    let array = BoundedArray {
        file,
        extents: Extents {
            sizes: Sizes { parameters },
            offset_size,
        },
        index_at: header.index_block_address,
    };
    let span = Span { address, length };
    list_spans(array, span, limit, addresses, lengths)
}

// Lists the header's span and those behind it.
fn list_spans(
    array: BoundedArray,
    header: Span,
    limit: usize,
    addresses: &mut [u64],
    lengths: &mut [u64],
) -> Result<u64, Refusal>
    requires { is_width array.extents.offset_size ≡ true }
    ensures { let s = in_room (also header (index_spans (array_in array.entry)))
        (min (room_of addresses.old lengths.old) limit) in
        (result ≡ counted_of s) × (addresses.new ≡ filled address_of s 0 addresses.old)
        × (lengths.new ≡ filled length_of s 0 lengths.old) }
{
    let needed = count_index(array)? + 1;
    let room = addresses.len().min(lengths.len()).min(limit);
    if (room as u64) < needed {
        return Err(Refusal::ListTooSmall(needed));
    }
    let mut lists = SpanLists {
        addresses,
        lengths,
        next: 0,
    };
    lists.push(header);
    write_index(array, &mut lists);
    Ok(needed)
}
