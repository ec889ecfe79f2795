#![tactic(auto)]
// The elements of an index: one read.
ghost use Rattle.std.specs.Prelude.{◌≡◌, Err, Ok};
ghost use Rattle.std.specs.Result.{MatchResult};
ghost use Rattle.refusal.specs.Refusals.{figure};
ghost use Rattle.chunk_grid.specs.Grid.{Grid};
ghost use Rattle.chunk_grid.specs.Values.{grid_of, in_extent, offsets_of};
ghost use Rattle.chunk_grid.specs.Numberings.{NumbersOf, ExtentsOf};
ghost use Rattle.chunk_slots.specs.Values.{handed};
ghost use Rattle.element_form.specs.Form.{element_size_test};
ghost use Rattle.elements.specs.Elements.{chunk_bytes as whole_bytes};

use chunk_grid::numbering::Numbering;
use chunk_slots::offsets_in_extent;
use element_form::Form;
use refusal::Refusal;

pub mod read;

// What elements are read by. (Made once, and lent to every read.)
#[derive(Clone, Copy)]
pub struct ElementReader<'a> {
    pub form: Form,
    // The published count.
    pub count: u64,
    // The bytes of one element of the dataset.
    pub element_bytes: u64,
    // The chunk's bytes, or 2^64 - 1 where they are more.
    pub chunk_bytes: u64,
    pub numbering: &'a Numbering<'a>,
    pub ghost chunked: { chunk_bytes ≡ figure (whole_bytes (grid_of numbering.now.grid.now) element_bytes) },
}

// A reader whose size of elements has passed its test.
#[derive(Clone, Copy)]
pub struct SizedReader<'a> {
    pub reader: ElementReader<'a>,
    pub ghost sized: { element_size_test reader.form ≡ Ok tt },
}

impl<'a> ElementReader<'a> {
    // The reader of elements of this form, of a dataset with this numbering and element size.
    pub fn new(form: Form, count: u64, numbering: &'a Numbering<'a>, element_bytes: u64) -> Self
        ensures { (result.form ≡ form) × (result.count ≡ count)
            × (result.numbering.now ≡ numbering.now) × (result.element_bytes ≡ element_bytes) }
    {
        ElementReader {
            form,
            count,
            element_bytes,
            chunk_bytes: chunk_bytes(numbering, element_bytes),
            numbering,
        }
    }

    // This reader, where the size of elements passes its test.
    pub fn sized(&self) -> Result<SizedReader<'a>, Refusal>
        ensures { MatchResult result (λ r. r.reader ≡ self.now)
            (λ e. element_size_test self.now.form ≡ Err e) }
    {
        self.form.test()?;
        Ok(SizedReader { reader: *self })
    }

    // The offsets of a slot into the lent array, and whether they lie in the present extents.
    #[inline(always)]
    pub fn reach(&self, offsets: &mut [u64; 32], slot: u64) -> Result<bool, Refusal>
        ensures { let m = self.now.numbering.now in
            (grid : Grid) → NumbersOf m grid → ExtentsOf m grid
            → (result ≡ offsets_of (in_extent grid slot)) × (offsets.new ≡ handed grid slot offsets.old) }
    {
        offsets_in_extent(offsets, slot, self.numbering)
    }
}

// The bytes of a chunk, the product of its lengths and the element's bytes, or 2^64 - 1 where they are more.
fn chunk_bytes(numbering: &Numbering, element_bytes: u64) -> u64
    ensures { result ≡ figure (whole_bytes (grid_of numbering.now.grid.now) element_bytes) }
{
    let rank = numbering.grid.rank as usize;
    numbering.grid.chunk[..rank].iter().fold(
        element_bytes,
        |bytes, length| bytes.saturating_mul(*length),
    )
}
