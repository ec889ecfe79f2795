// The tests of the structures that have spans: 31 before the others.
ghost use Rattle.std.specs.Prelude.{◌≡◌, ◌<◌, Ok};
ghost use Rattle.refusal.specs.Outcome.{◌yields◌};
ghost use Rattle.ea_header.specs.Header.{header_at};
ghost use Rattle.ea_geometry.specs.Sizes.{super_blocks};
ghost use Rattle.ea_blocks.specs.Values.{array_in};
ghost use Rattle.ea_blocks.specs.Structures.{index_block, super_block, super_block_at};
ghost use Rattle.span_walk.specs.Spans.{header_span, span_test, spanned_test};
ghost use Rattle.span_walk.specs.Walk.{head_test};

use crate::spans::{array_alone, index_span, super_span};
use ea_blocks::BoundedArray;
use ea_blocks::tests::test_index_block;
use ea_header::ExtensibleArrayHeader;
use refusal::Refusal;
use span_walk::Span;
use structures::header::IndexHeader;

// The header's 31. Its length may be past 2^64 - 1 itself, so what is looked at is the address of its last byte: the
// end is past 2^64 - 1 where that is 2^64 - 1 or more.
fn test_header_span(address: u64, offset_size: u64, length_size: u64) -> Result<(), Refusal>
    ensures { result ≡ span_test (header_span address offset_size length_size) }
{
    let sizes = length_size.saturating_mul(6).saturating_add(offset_size);
    let last = sizes.saturating_add(15).saturating_add(address);
    if last < u64::MAX {
        return Ok(());
    }
    let length = ExtensibleArrayHeader::serialized_size(offset_size, length_size);
    Err(Refusal::SpanOverflow(address, length))
}

// Reads the header at an address: 31, then its own refusals, then 27.
pub fn parse_served(
    file: &[u8],
    address: u64,
    offset_size: u64,
    length_size: u64,
) -> Result<ExtensibleArrayHeader, Refusal>
    ensures { let f = file.now in
        result ≡ (head_test f address offset_size length_size
        yields Ok (header_at f address offset_size length_size)) }
{
    test_header_span(address, offset_size, length_size)?;
    let header = ExtensibleArrayHeader::parse(file, address, offset_size, length_size)?;
    header.parameters.served_test()?;
    Ok(header)
}

// 31 where a span's end is past 2^64 - 1.
#[tactic(auto, using(crate::proofs::SpanTests::span_fits, crate::proofs::SpanTests::span_exact))]
fn test_span(span: Span) -> Result<(), Refusal>
    ensures { result ≡ span_test span }
{
    if span.address.checked_add(span.length).is_some() {
        Ok(())
    } else {
        Err(Refusal::SpanOverflow(span.address, span.length))
    }
}

// Tests the index block: 31, then 20, 23, 26.
pub fn test_index(array: BoundedArray) -> Result<(), Refusal>
    ensures { result ≡ spanned_test (array_in array.entry) index_block }
{
    test_span(index_span(array))?;
    test_index_block(array.file, array_alone(array))
}

// Tests super block u, which lies at `at`: 31, then 20, 25, 26.
pub fn test_super(array: BoundedArray, u: u64, at: u64) -> Result<(), Refusal>
    requires { u < super_blocks array.extents.sizes.parameters }
    ensures { let a = array_in array.entry in at ≡ super_block_at a u → result ≡ spanned_test a (super_block u) }
{
    test_span(super_span(array, u, at))?;
    array.test_super_block(u, at)
}
