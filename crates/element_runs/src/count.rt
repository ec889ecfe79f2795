// A run of elements tested, and its records counted.
ghost use Rattle.std.specs.Prelude.{◌≡◌, true, [], ℕ, ◌+◌, ◌-◌, ◌*◌, ◌<◌, ◌≤◌, min, length, Ok};
ghost use Rattle.refusal.specs.Refusals.{figure, largest64};
ghost use Rattle.refusal.specs.Values.{counted_of};
ghost use Rattle.chunk_grid.specs.Grid.{Grid};
ghost use Rattle.chunk_grid.specs.Values.{in_extent, offsets_of};
ghost use Rattle.element_form.specs.Form.{stride};
ghost use Rattle.elements.specs.Elements.{chunk_bytes};
ghost use Rattle.elements.specs.Runs.{elements_from};
ghost use Rattle.elements.specs.Values.{elements_of, Reads};
ghost use Rattle.element_runs.specs.Defined.{sizes_fit, all_chunks};

use crate::defined::count_defined;
use crate::step::{Step, step_from};
use chunk_slots::all_inside;
use elements::read::read_inside_element;
use elements::{ElementReader, SizedReader};
use refusal::Refusal;

// Tests and counts n elements from pos on, whose slots begin at `slot`, up to the published count.
pub fn count_elements(
    file: &[u8],
    pos: u64,
    n: u64,
    slot: u64,
    reader: &ElementReader,
) -> Result<u64, Refusal>
    requires { pos + n * stride reader.now.form ≤ length file.now }
    ensures { (grid : Grid) (m : ℕ) → Reads reader.now grid m
        → result ≡ counted_of (elements_from (elements_of file.now reader.now grid m) pos n slot (Ok [])) }
{
    let left = below_count(n, slot, reader.count);
    if left == 0 {
        return Ok(0);
    }
    let sized = reader.sized()?;
    let start = pos as usize;
    if all_chunks(slot + left, &sized) {
        let form = sized.reader.form;
        return Ok(count_defined(file, start, left, form.stride() as usize, form.offset_size));
    }
    count_steps(file, start, left, slot, &sized)
}

// How many of n slots from `slot` on lie below the count.
pub fn below_count(n: u64, slot: u64, count: u64) -> u64
    ensures { result ≡ min n (count - slot) }
{
    n.min(count.saturating_sub(slot))
}

// Whether every defined element of the first n slots is a chunk's.
#[tactic(auto, unfolding(crate::specs::Defined::all_chunks))]
fn all_chunks(n: u64, sized: &SizedReader) -> bool
    ensures { let r = sized.now.reader in
        (grid : Grid) (m : ℕ) → Reads r grid m → result ≡ all_chunks r.form grid m n }
{
    sizes_fit(sized) && all_inside(n, sized.reader.numbering)
}

// Whether no size passes 2^32 - 1.
#[tactic(auto, using(crate::proofs::AllChunks::fit_plain, crate::proofs::AllChunks::fit_filtered))]
fn sizes_fit(sized: &SizedReader) -> bool
    ensures { let r = sized.now.reader in
        (grid : Grid) (m : ℕ) → r.chunk_bytes ≡ figure (chunk_bytes grid m) → result ≡ sizes_fit r.form grid m }
{
    let form = sized.reader.form;
    if form.is_filtered() {
        return form.size_bytes() <= 4;
    }
    sized.reader.chunk_bytes <= 0xffff_ffff
}

// Tests and counts n elements below the published count, step by step.
fn count_steps(
    file: &[u8],
    pos: usize,
    n: u64,
    slot: u64,
    sized: &SizedReader,
) -> Result<u64, Refusal>
    requires { (pos + n * stride sized.now.reader.form ≤ length file.now) × (slot + n ≤ sized.now.reader.count)
        × (slot + n ≤ largest64) }
    ensures { let r = sized.now.reader in
        (grid : Grid) (m : ℕ) → Reads r grid m
        → result ≡ counted_of (elements_from (elements_of file.now r grid m) pos n slot (Ok [])) }
{
    let stride = sized.reader.form.stride() as usize;
    let mut offsets = [0u64; 32];
    let mut count = 0;
    let mut at = pos;
    let mut here = slot;
    let mut left = n;
    // Of the elements that are passed `count` are chunks', and `left` are left, from `at` and slot `here` on. (A step
    // is a whole line or gap.)
    while 0 < left {
        let passed = match step_from(&mut offsets, file, at, left, here, sized)? {
            Step::Gap(slots) => slots,
            Step::Line(line) => {
                let slots = line.slots.min(left);
                count += count_line(file, at, slots, sized)?;
                slots
            }
        };
        at += passed as usize * stride;
        here += passed;
        left -= passed;
    }
    Ok(count)
}

// Tests and counts n elements whose slots lie in the present extents, below the published count.
fn count_line(file: &[u8], pos: usize, n: u64, sized: &SizedReader) -> Result<u64, Refusal>
    requires { pos + n * stride sized.now.reader.form ≤ length file.now }
    ensures { let r = sized.now.reader in
        (grid : Grid) (m s : ℕ) → Reads r grid m → s + n ≤ r.count
        → ((j : ℕ) → j < n → offsets_of (in_extent grid (s + j)) ≡ Ok true)
        → result ≡ counted_of (elements_from (elements_of file.now r grid m) pos n s (Ok [])) }
{
    let stride = sized.reader.form.stride() as usize;
    if sizes_fit(sized) {
        return Ok(count_defined(file, pos, n, stride, sized.reader.form.offset_size));
    }
    let mut count = 0;
    // Of the first i elements `count` are chunks'.
    for i in 0..n {
        if read_inside_element(file, pos + i as usize * stride, sized)?.is_some() {
            count += 1;
        }
    }
    Ok(count)
}
