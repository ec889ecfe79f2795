// The walk that tests and counts.
ghost use Rattle.std.specs.Prelude.{◌≡◌, true, ◌<◌, length};
ghost use Rattle.refusal.specs.Values.{counted_of};
ghost use Rattle.fields.specs.Fields.{is_width, undefined};
ghost use Rattle.ea_geometry.specs.Sizes.{super_blocks, blocks};
ghost use Rattle.ea_blocks.specs.Values.{array_in, NamedAt};
ghost use Rattle.span_walk.specs.Walk.{block_spans, super_spans, supers_from, index_spans};

use crate::spans::array_alone;
use crate::tests::{test_index, test_super};
use ea_blocks::enter::BlockRow;
use ea_blocks::{ArrayInFile, BoundedArray, ExtensibleArray};
use fields::address::{Address, is_undefined_addr};
use refusal::Refusal;

// Tests the index block and what it leads to, and counts the spans behind the header's.
pub fn count_index(array: BoundedArray) -> Result<u64, Refusal>
    requires { is_width array.extents.offset_size ≡ true }
    ensures { result ≡ counted_of (index_spans (array_in array.entry)) }
{
    if index_undefined(array_alone(array)) {
        return Ok(0);
    }
    test_index(array)?;
    Ok(count_supers(ArrayInFile { array })? + 1)
}

// Whether there is no index block.
pub fn index_undefined(array: ExtensibleArray) -> bool
    ensures { result ≡ undefined array.geometry.offset_size array.index_at }
{
    let address = Address {
        value: array.index_at,
    };
    is_undefined_addr(address, array.geometry.offset_size)
}

// Tests and counts the super blocks, and counts their data blocks.
fn count_supers(array: ArrayInFile) -> Result<u64, Refusal>
    ensures { let a = array_in array.entry.array in result ≡ counted_of (supers_from a (super_blocks a.parameters) 0) }
{
    let supers = array.array.extents.sizes.super_blocks();
    let mut total = 0;
    // The super blocks before u are accepted, and have `total` spans with their data blocks.
    for u in 0..supers {
        total += count_super(array, u)?;
    }
    Ok(total)
}

// Tests and counts super block u, unless the index block names its data blocks, and counts these.
fn count_super(array: ArrayInFile, u: u64) -> Result<u64, Refusal>
    requires { u < super_blocks array.array.extents.sizes.parameters }
    ensures { result ≡ counted_of (super_spans (array_in array.entry.array) u) }
{
    if u < array.array.extents.sizes.direct_super_blocks() {
        let super_at = None;
        return Ok(count_blocks(BlockRow { array, u, super_at }));
    }
    let Some(at) = array.super_pointer(u) else {
        return Ok(0);
    };
    test_super(array.array, u, at)?;
    let super_at = Some(at);
    Ok(count_blocks(BlockRow { array, u, super_at }) + 1)
}

// Counts the data blocks of a super block that are pointed to.
fn count_blocks(row: BlockRow) -> u64
    requires { NamedAt (array_in row.array.array) row.u row.super_at }
    ensures { let r = row.entry in result ≡ length (block_spans (array_in r.array.array) r.u (blocks r.u) 0) }
{
    let blocks = row.array.array.extents.sizes.blocks(row.u);
    let pointed = (0..blocks).filter(|k| row.block_pointer(*k).is_some());
    pointed.count() as u64
}
