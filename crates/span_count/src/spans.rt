// The spans of an array's structures.
ghost use Rattle.std.specs.Prelude.{◌≡◌, ◌<◌, List, ℕ};
ghost use Rattle.ea_geometry.specs.Sizes.{super_blocks};
ghost use Rattle.ea_blocks.specs.Values.{array_of, array_in};
ghost use Rattle.ea_blocks.specs.Structures.{index_block, super_block, super_block_at};
ghost use Rattle.span_walk.specs.Spans.{block_length, span_of};
ghost use Rattle.span_count.specs.Values.{array_with};

use ea_blocks::{BoundedArray, ExtensibleArray};
use ea_geometry::EaGeometry;
use ea_geometry::extents::Extents;
use span_walk::Span;

// The array without its file.
pub fn array_alone(array: BoundedArray) -> ExtensibleArray
    ensures { array_of array.entry.file.now result ≡ array_in array.entry }
{
    ExtensibleArray {
        geometry: EaGeometry {
            parameters: array.extents.sizes.parameters,
            offset_size: array.extents.offset_size,
        },
        index_at: array.index_at,
    }
}

// The index block's span, whatever file it lies in.
pub fn index_span(array: BoundedArray) -> Span
    ensures { (f : List ℕ) → result ≡ span_of (array_with f array.entry) index_block }
{
    Span {
        address: array.index_at,
        length: array_alone(array).geometry.index_extent(),
    }
}

// The span of super block u, which lies at `at` in some file.
#[tactic(auto, using(crate::proofs::SpanTests::super_span_is))]
pub fn super_span(array: BoundedArray, u: u64, at: u64) -> Span
    requires { u < super_blocks array.extents.sizes.parameters }
    ensures { (f : List ℕ) → let a = array_with f array.entry in at ≡ super_block_at a u → result
        ≡ span_of a (super_block u) }
{
    Span {
        address: at,
        length: array.extents.super_extent(u),
    }
}

// The bytes of a data block of super block u: paged where it has more elements than a page.
#[tactic(auto, unfolding(span_walk::specs::Spans::block_length))]
pub fn block_length(extents: Extents, u: u64) -> u64
    requires { u < super_blocks extents.sizes.parameters }
    ensures { result ≡ block_length extents.sizes.parameters extents.offset_size u }
{
    if extents.sizes.over_page(u) {
        return extents.paged_extent(u);
    }
    extents.data_extent(u)
}
