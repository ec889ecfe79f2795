// The walk that writes. What it walks has been tested and counted: nothing is refused any more.
ghost use Rattle.std.specs.Prelude.{◌≡◌, true, ◌<◌, Ok};
ghost use Rattle.fields.specs.Fields.{is_width};
ghost use Rattle.ea_geometry.specs.Sizes.{super_blocks, blocks};
ghost use Rattle.ea_blocks.specs.Values.{array_in, NamedAt};
ghost use Rattle.span_walk.specs.Walk.{block_spans, super_spans, supers_from, index_spans};
ghost use Rattle.ea_spans.specs.Values.{Room, Written};

use crate::lists::SpanLists;
use ea_blocks::enter::BlockRow;
use ea_blocks::{ArrayInFile, BoundedArray};
use span_count::count::index_undefined;
use span_count::spans::{array_alone, block_length, index_span, super_span};
use span_walk::Span;

// Writes the spans behind the header's.
pub fn write_index(array: BoundedArray, lists: &mut SpanLists)
    requires { (is_width array.extents.offset_size ≡ true) × Room (index_spans (array_in array)) lists.old }
    ensures { Written (index_spans (array_in array.entry)) lists.old lists.new }
{
    if index_undefined(array_alone(array)) {
        return;
    }
    lists.push(index_span(array));
    write_supers(ArrayInFile { array }, lists)
}

// Writes the spans of the super blocks and of their data blocks.
fn write_supers(array: ArrayInFile, lists: &mut SpanLists)
    requires { let a = array_in array.array in Room (supers_from a (super_blocks a.parameters) 0) lists.old }
    ensures { let a = array_in array.entry.array in
        Written (supers_from a (super_blocks a.parameters) 0) lists.old lists.new }
{
    let supers = array.array.extents.sizes.super_blocks();
    // The spans of the super blocks before u are written.
    for u in 0..supers {
        write_super(array, u, lists);
    }
}

// Writes the span of super block u, unless the index block names its data blocks, and the spans of these.
fn write_super(array: ArrayInFile, u: u64, lists: &mut SpanLists)
    requires { (u < super_blocks array.array.extents.sizes.parameters)
        × Room (super_spans (array_in array.array) u) lists.old }
    ensures { Written (super_spans (array_in array.entry.array) u) lists.old lists.new }
{
    if u < array.array.extents.sizes.direct_super_blocks() {
        let super_at = None;
        return write_blocks(BlockRow { array, u, super_at }, lists);
    }
    let Some(at) = array.super_pointer(u) else {
        return;
    };
    lists.push(super_span(array.array, u, at));
    let super_at = Some(at);
    write_blocks(BlockRow { array, u, super_at }, lists)
}

// Writes the spans of the data blocks of a super block that are pointed to.
fn write_blocks(row: BlockRow, lists: &mut SpanLists)
    requires { let a = array_in row.array.array in NamedAt a row.u row.super_at
        × Room (Ok (block_spans a row.u (blocks row.u) 0)) lists.old }
    ensures { let r = row.entry in
        Written (Ok (block_spans (array_in r.array.array) r.u (blocks r.u) 0)) lists.old lists.new }
{
    let extents = row.array.array.extents;
    let blocks = extents.sizes.blocks(row.u);
    let length = block_length(extents, row.u);
    // The spans of the data blocks before k are written.
    for k in 0..blocks {
        if let Some(address) = row.block_pointer(k) {
            lists.push(Span { address, length });
        }
    }
}
