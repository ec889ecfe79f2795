#![tactic(auto)]
// Records written into a lent list.
ghost use Rattle.std.specs.Prelude.{◌≡◌, List, [], ℕ, ◌+◌, ◌*◌, ◌≤◌, length, set, Ok};
ghost use Rattle.std.proofs.lemmas.List.Edits.{sets};
ghost use Rattle.chunk_grid.specs.Grid.{Grid};
ghost use Rattle.element_form.specs.Form.{stride};
ghost use Rattle.index.specs.Index.{Rec};
ghost use Rattle.elements.specs.Runs.{elements_from};
ghost use Rattle.elements.specs.Values.{elements_of, Reads};
ghost use Rattle.element_runs.specs.Steps.{ReadsLine};
ghost use Rattle.records.specs.Records.{record_length, offset_bytes, record_bytes, list_bytes};

use chunk_slots::Line;
use element_runs::count::below_count;
use element_runs::step::{Step, step_from};
use elements::read::read_inside_element;
use elements::{ElementReader, SizedReader};
use fields::bytes::put_le;
use index::Entry;

// Writes the record of an entry, and of the chunk whose corner these offsets are, but for dimension `dim`, whose offset
// is `offset`, from `at` on.
#[tactic(auto, unfolding(crate::specs::Records::record_length))]
pub fn put_record(out: &mut [u8], at: usize, entry: Entry, offsets: &[u64], dim: usize, offset: u64)
    requires { at + record_length (length offsets.now) ≤ length out.old }
    ensures { out.new
        ≡ sets out.old at (record_bytes (record { entry = entry; corner = set offsets.now dim offset })) }
{
    put_le(out, at, 8, entry.address);
    put_le(out, at + 8, 4, entry.size as u64);
    put_le(out, at + 12, 4, entry.mask as u64);
    put_offsets(out, at + 16, offsets, dim, offset);
}

// Writes these offsets from `at` on, but for dimension `dim`.
fn put_offsets(out: &mut [u8], at: usize, offsets: &[u64], dim: usize, offset: u64)
    requires { at + 8 * length offsets.now ≤ length out.old }
    ensures { out.new ≡ sets out.old at (offset_bytes (set offsets.now dim offset)) }
{
    // The first i offsets are written.
    for (i, own) in offsets.iter().enumerate() {
        let value = if i == dim { offset } else { *own };
        put_le(out, at + 8 * i, 8, value);
    }
}

// Writes the records of n elements from pos on, whose slots lie in a line, into the list from `at` on; the first slot's
// offsets are the corner. Gives where they end.
#[tactic(auto, using(crate::proofs::Lines::line_fits, crate::proofs::Lines::line_begins))]
#[inline(never)]
fn write_line(
    out: &mut [u8],
    at: usize,
    file: &[u8],
    pos: usize,
    n: u64,
    sized: &SizedReader,
    corner: &[u64],
    line: Line,
) -> usize
    requires { ((grid : Grid) × (m : ℕ) × (s : ℕ) × (l : List Rec)
        × ReadsLine sized.now.reader corner.now line grid m s
        × (elements_from (elements_of file.now sized.now.reader grid m) pos n s (Ok []) ≡ Ok l)
        × (at + length (list_bytes l) ≤ length out.old) × (s + n ≤ sized.now.reader.count))
        × (n ≤ line.slots) × (pos + n * stride sized.now.reader.form ≤ length file.now) }
    ensures { (grid : Grid) (m s : ℕ) (l : List Rec)
        → ReadsLine sized.now.reader corner.now line grid m s
        → elements_from (elements_of file.now sized.now.reader grid m) pos n s (Ok []) ≡ Ok l
        → s + n ≤ sized.now.reader.count
        → (out.new ≡ sets out.old at (list_bytes l)) × (result ≡ at + length (list_bytes l)) }
{
    // (A copy: behind a reference its fields would be loaded anew for every record.)
    let own = *sized;
    let stride = own.reader.form.stride() as usize;
    let dim = line.dim as usize;
    let step = own.reader.numbering.grid.chunk[dim];
    let first = line.first * step;
    let mut to = at;
    // The records of the first i elements are written up to `to`.
    for i in 0..n {
        let from = pos + i as usize * stride;
        if let Ok(Some(entry)) = read_inside_element(file, from, &own) {
            put_record(out, to, entry, corner, dim, first + i * step);
            to += 16 + 8 * corner.len();
        }
    }
    to
}

// Writes the records of n elements from pos on, whose slots begin at `slot`, up to the published count, into the list
// from `at` on. Gives where they end. Such a run is counted before: nothing is refused any more.
pub fn write_elements(
    out: &mut [u8],
    at: usize,
    file: &[u8],
    pos: u64,
    n: u64,
    slot: u64,
    reader: &ElementReader,
) -> usize
    requires { ((grid : Grid) × (m : ℕ) × (l : List Rec) × Reads reader.now grid m
        × (elements_from (elements_of file.now reader.now grid m) pos n slot (Ok []) ≡ Ok l)
        × (at + length (list_bytes l) ≤ length out.old))
        × (pos + n * stride reader.now.form ≤ length file.now) }
    ensures { (grid : Grid) (m : ℕ) (l : List Rec) → Reads reader.now grid m
        → elements_from (elements_of file.now reader.now grid m) pos n slot (Ok []) ≡ Ok l
        → (out.new ≡ sets out.old at (list_bytes l)) × (result ≡ at + length (list_bytes l)) }
{
    let below = below_count(n, slot, reader.count);
    if below == 0 {
        return at;
    }
    let sized = SizedReader { reader: *reader };
    let stride = reader.form.stride() as usize;
    let rank = reader.numbering.grid.rank as usize;
    let mut offsets = [0u64; 32];
    let mut to = at;
    let mut from = pos as usize;
    let mut here = slot;
    let mut left = below;
    // The records of the elements that are passed are written up to `to`, and `left` elements are left, from `from` and
    // slot `here` on. (A step is a whole line or gap.)
    while 0 < left {
        let passed = match step_from(&mut offsets, file, from, left, here, &sized) {
            Ok(Step::Gap(slots)) => slots,
            Ok(Step::Line(line)) => {
                let slots = line.slots.min(left);
                to = write_line(out, to, file, from, slots, &sized, &offsets[..rank], line);
                slots
            }
            Err(_) => left,
        };
        from += passed as usize * stride;
        here += passed;
        left -= passed;
    }
    to
}
