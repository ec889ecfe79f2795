#![tactic(auto)]
// The geometry of a fixed array: how many pages it has, how many bytes its structures take, and where its elements lie.
// No sum or product passes 2^64 - 1 unseen: before the data block is tested any number of entries and any offset size
// may stand there.
ghost use Rattle.std.specs.Prelude.{◌≡◌, ◌*◌, ◌^◌, ◌<◌, ◌≤◌};
ghost use Rattle.refusal.specs.Refusals.{figure};
ghost use Rattle.fields.specs.Values.{exact};
ghost use Rattle.fa_geometry.specs.Layout.{fixed_form, fixed_stride, fixed_page_elements, is_paged, fixed_pages};
ghost use Rattle.fa_geometry.specs.Layout.{fixed_prefix, fixed_page_stride, fixed_tested_extent, page_entries};
ghost use Rattle.fa_geometry.specs.Layout.{fixed_page_extent};

use element_form::Form;
use fa_header::FixedArrayHeader;

// A fixed array: its header and the size of an address.
#[derive(Clone, Copy)]
pub struct FixedArray {
    pub header: FixedArrayHeader,
    pub offset_size: u64,
}

// The layout of a fixed array that is served: its page exponent is within its limit.
#[derive(Clone, Copy)]
pub struct Layout {
    pub array: FixedArray,
    pub ghost served: { array.header.max_nelmts_bits ≤ 32 },
}

impl FixedArray {
    // The form of the array's elements.
    pub fn form(self) -> Form
        ensures { result ≡ fixed_form self.header self.offset_size }
    {
        Form {
            client_id: self.header.client_id,
            element_size: self.header.element_size,
            offset_size: self.offset_size,
        }
    }

    // The bytes of an element.
    pub fn element_stride(self) -> u64
        ensures { result ≡ fixed_stride self.header self.offset_size }
    {
        self.form().stride()
    }

    // The data block before its elements or page bits; past 2^64 - 1 it is 2^64 - 1.
    #[tactic(auto, unfolding(refusal::specs::Refusals::figure, crate::specs::Layout::fixed_prefix))]
    pub fn prefix(self) -> u64
        ensures { result ≡ figure (fixed_prefix self.offset_size) }
    {
        self.offset_size.saturating_add(6)
    }
}

impl Layout {
    // The elements of a page.
    #[tactic(auto, unfolding(crate::specs::Layout::fixed_page_elements))]
    pub fn page_elements(self) -> u64
        ensures { (result ≡ fixed_page_elements self.array.header) × (0 < result) × (result ≤ 2 ^ 32) }
    {
        1 << self.array.header.max_nelmts_bits
    }

    // Whether the data block is paged.
    #[tactic(auto, unfolding(crate::specs::Layout::is_paged))]
    pub fn is_paged(self) -> bool
        ensures { result ≡ is_paged self.array.header }
    {
        self.page_elements() < self.array.header.num_elements
    }

    // How many pages there are.
    #[tactic(auto, using(chunk_grid::proofs::Building::rounded_up), unfolding(crate::specs::Layout::fixed_pages))]
    pub fn pages(self) -> u64
        ensures { result ≡ fixed_pages self.array.header }
    {
        self.array
            .header
            .num_elements
            .div_ceil(self.page_elements())
    }

    // The bytes that the data block's own test covers; past 2^64 - 1 it is 2^64 - 1.
    pub fn tested_extent(self) -> u64
        ensures { result ≡ figure (fixed_tested_extent self.array.header self.array.offset_size) }
    {
        let inner = if self.is_paged() {
            self.pages().div_ceil(8)
        } else {
            self.array
                .header
                .num_elements
                .saturating_mul(self.array.element_stride())
        };
        self.array.prefix().saturating_add(inner).saturating_add(4)
    }

    // The full stride of a page.
    #[tactic(auto, unfolding(fields::specs::Values::exact, crate::specs::Layout::fixed_page_stride))]
    pub fn page_stride(self) -> Option<u64>
        ensures { result ≡ exact (fixed_page_stride self.array.header self.array.offset_size) }
    {
        self.page_elements()
            .checked_mul(self.array.element_stride())?
            .checked_add(4)
    }

    // A page's number times the stride.
    #[tactic(auto, unfolding(fields::specs::Values::exact))]
    pub fn page_offset(self, p: u64) -> Option<u64>
        ensures { result ≡ exact (p * fixed_page_stride self.array.header self.array.offset_size) }
    {
        if p == 0 {
            return Some(0);
        }
        p.checked_mul(self.page_stride()?)
    }

    // How many elements page p has: the last one has what is left.
    #[tactic(auto, using(crate::proofs::Pages::page_before), unfolding(crate::specs::Layout::page_entries))]
    pub fn page_entries(self, p: u64) -> u64
        requires { p < fixed_pages self.array.header }
        ensures { (result ≡ page_entries self.array.header p) × (result ≤ 2 ^ 32) }
    {
        let page = self.page_elements();
        let left = self.array.header.num_elements - p * page;
        page.min(left)
    }

    // The bytes of page p; past 2^64 - 1 it is 2^64 - 1.
    #[tactic(auto, unfolding(refusal::specs::Refusals::figure, crate::specs::Layout::fixed_page_extent))]
    pub fn page_extent(self, p: u64) -> u64
        requires { p < fixed_pages self.array.header }
        ensures { result ≡ figure (fixed_page_extent self.array.header self.array.offset_size p) }
    {
        self.page_entries(p)
            .saturating_mul(self.array.element_stride())
            .saturating_add(4)
    }
}
