#![tactic(auto)]
// The lists of spans as C calls them. They are built for tests, and are no part of the library.
ghost use Rattle.std.specs.Prelude.{◌≡◌};
ghost use Rattle.ea_spans.specs.SpanList.{spans_into, filled, address_of, length_of};
ghost use Rattle.span_records.specs.Stored.{spans_as_records, recorded};
ghost use Rattle.calls.specs.Answer.{answered, picked, list_numbers};

use calls::counted_number;
use ea_spans::extensible_array_index_spans;
use span_records::extensible_array_index_span_records;
use span_walk::Span;

// Lists the spans of the index whose header lies at an address, and gives one number of the answer.
#[unsafe(no_mangle)]
pub extern "C" fn cellumaq_test_spans(
    file: &[u8],
    offset_size: u64,
    length_size: u64,
    address: u64,
    addresses: &mut [u64],
    lengths: &mut [u64],
    which: u64,
) -> u64
    ensures { let s = spans_into file.now address offset_size length_size
        addresses.old lengths.old in
        (result ≡ picked which (answered 1 list_numbers s))
        × (addresses.new ≡ filled address_of s 0 addresses.old)
        × (lengths.new ≡ filled length_of s 0 lengths.old) }
{
    let counted = extensible_array_index_spans(
        file,
        address,
        offset_size,
        length_size,
        addresses,
        lengths,
    );
    counted_number(which, counted, 1)
}

// Lists them as records, in C an array of `struct { uint64_t address, length; }`, and gives one number of the answer.
#[unsafe(no_mangle)]
pub extern "C" fn cellumaq_test_span_records(
    file: &[u8],
    offset_size: u64,
    length_size: u64,
    address: u64,
    addresses: &mut [u64],
    lengths: &mut [u64],
    spans: &mut [Span],
    which: u64,
) -> u64
    ensures { let s = spans_as_records file.now address offset_size length_size
        addresses.old lengths.old spans.old in
        (result ≡ picked which (answered 1 list_numbers s))
        × (addresses.new ≡ filled address_of s 0 addresses.old)
        × (lengths.new ≡ filled length_of s 0 lengths.old)
        × (spans.new ≡ recorded s spans.old) }
{
    let counted = extensible_array_index_span_records(
        file,
        address,
        offset_size,
        length_size,
        addresses,
        lengths,
        spans,
    );
    counted_number(which, counted, 1)
}
