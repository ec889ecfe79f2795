#![tactic(auto)]
// A lent list of span records, written in place.
ghost use Rattle.std.specs.Prelude.{◌≡◌, ◌≤◌};
ghost use Rattle.refusal.specs.Values.{counted_of};
ghost use Rattle.ea_spans.specs.SpanList.{filled, address_of, length_of};
ghost use Rattle.span_records.specs.Stored.{record_room, stored, store_test, stored_where, spans_as_records, recorded};

use ea_spans::extensible_array_index_spans_within;
use refusal::Refusal;
use span_walk::Span;

// Lists the spans of the index whose header lies at an address, as records from number 0 on. The lists of addresses and
// lengths are room to work in: they are filled too. The answer is how many spans they are. After a refusal all three
// lists are as they were; 9 tells how many spans each must hold.
pub fn extensible_array_index_span_records(
    file: &[u8],
    address: u64,
    offset_size: u64,
    length_size: u64,
    addresses: &mut [u64],
    lengths: &mut [u64],
    spans: &mut [Span],
) -> Result<u64, Refusal>
    ensures { let s = spans_as_records file.now address offset_size length_size
        addresses.old lengths.old spans.old in
        (result ≡ counted_of s) × (addresses.new ≡ filled address_of s 0 addresses.old)
        × (lengths.new ≡ filled length_of s 0 lengths.old)
        × (spans.new ≡ recorded s spans.old) }
{
    let limit = spans.len();
    let n = extensible_array_index_spans_within(
        file,
        address,
        offset_size,
        length_size,
        limit,
        addresses,
        lengths,
    )?;
    // n spans have room in all three lists: this is not refused.
    store_spans(spans, addresses, lengths, n as usize)?;
    Ok(n)
}

// Stores the first n spans, whose addresses and lengths the two lists hold, as the first n records. 9 where a list is
// shorter than n: then nothing is stored.
pub fn store_spans(
    spans: &mut [Span],
    addresses: &[u64],
    lengths: &[u64],
    n: usize,
) -> Result<(), Refusal>
    ensures checked { result ≡ store_test n addresses.now lengths.now spans.old }
    ensures records { spans.new
        ≡ stored_where n addresses.now lengths.now spans.old }
{
    let room = addresses.len().min(lengths.len()).min(spans.len());
    if room < n {
        return Err(Refusal::ListTooSmall(n as u64));
    }
    copy_spans(spans, addresses, lengths, n);
    Ok(())
}

// The same where there is room for n.
fn copy_spans(spans: &mut [Span], addresses: &[u64], lengths: &[u64], n: usize)
    requires { n ≤ record_room addresses.now lengths.now spans.old }
    ensures { spans.new ≡ stored n addresses.now lengths.now spans.old }
{
    // The first i records hold the first i spans.
    for (i, span) in spans[..n].iter_mut().enumerate() {
        *span = Span {
            address: addresses[i],
            length: lengths[i],
        };
    }
}
