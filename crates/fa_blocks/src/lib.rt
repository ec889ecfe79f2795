#![tactic(auto)]
// The structures of a fixed array: its data block tested, its pages stepped into.
ghost use Rattle.std.specs.Prelude.{◌≡◌, ◌+◌, ◌<◌, ◌≤◌, true, false, List, ℕ};
ghost use Rattle.refusal.specs.Refusals.{figure};
ghost use Rattle.fa_geometry.specs.Layout.{is_paged, fixed_pages, fixed_prefix};
ghost use Rattle.fa_blocks.specs.FixedArray.{fixed_block_at, never_stored};
ghost use Rattle.fa_blocks.specs.Blocks.{fixed_block_test, fixed_page_set, fixed_page_test, fixed_page_position};
ghost use Rattle.fa_blocks.specs.Blocks.{fixed_position};
ghost use Rattle.fa_blocks.specs.Values.{fixed_of, fixed_in, BlockInside};

use fa_geometry::{FixedArray, Layout};
use fields::address::{Address, is_undefined_addr};
use refusal::Refusal;
use structures::page_bits::page_is_initialized;
use structures::{Kind, test_before_checksum, test_structure};

pub mod enter;

// "FADB"
const DATA_BLOCK: Kind = Kind::Signed {
    wrong: Refusal::FixedDataBlockSignature,
    signature: 0x4244_4146,
};

// A served fixed array in a file.
#[derive(Clone, Copy)]
pub struct ArrayInFile<'a> {
    pub file: &'a [u8],
    pub layout: Layout,
}

// One whose data block is unpaged and lies in the file.
#[derive(Clone, Copy)]
pub struct UnpagedBlock<'a> {
    pub array: ArrayInFile<'a>,
    pub ghost inside: { BlockInside (fixed_in array) },
    pub ghost unpaged: { is_paged array.layout.array.header ≡ false },
}

// One whose data block is paged and has its head in the file.
#[derive(Clone, Copy)]
pub struct PagedBlock<'a> {
    pub array: ArrayInFile<'a>,
    pub ghost inside: { BlockInside (fixed_in array) },
    pub ghost paged: { is_paged array.layout.array.header ≡ true },
}

// Whether the data block's address is undefined.
#[tactic(auto, unfolding(crate::specs::FixedArray::never_stored))]
pub fn never_stored(array: FixedArray) -> bool
    ensures { (file : List ℕ) → result ≡ never_stored (fixed_of file array) }
{
    let address = Address {
        value: array.header.data_block_address,
    };
    is_undefined_addr(address, array.offset_size)
}

impl<'a> ArrayInFile<'a> {
    // Tests the data block: 20, 35, 28, then 20 and 26 of the block or, paged, of its head.
    pub fn test_block(self) -> Result<(), Refusal>
        ensures { result ≡ fixed_block_test (fixed_in self.entry) }
    {
        let array = self.layout.array;
        let at = array.header.data_block_address;
        test_before_checksum(self.file, DATA_BLOCK, at, array.prefix())?;
        array.form().test_room()?;
        test_structure(self.file, Kind::Page, at, self.layout.tested_extent())
    }

    // The file's position behind the data block's prefix, where its elements or page bits begin.
    fn behind_prefix(self) -> u64
        requires { BlockInside (fixed_in self) }
        ensures { let a = fixed_in self.entry in result ≡ fixed_block_at a + fixed_prefix a.offset_size }
    {
        let array = self.layout.array;
        array.header.data_block_address + array.prefix()
    }
}

impl<'a> UnpagedBlock<'a> {
    // The file's position of the element of a slot, or of the end of all elements.
    pub fn element_position(self, slot: u64) -> u64
        requires { slot ≤ self.array.layout.array.header.num_elements }
        ensures { result ≡ fixed_position (fixed_in self.entry.array) slot }
    {
        self.array.behind_prefix() + slot * self.array.layout.array.element_stride()
    }
}

impl<'a> PagedBlock<'a> {
    // Whether page p is set.
    #[tactic(auto, unfolding(crate::specs::Blocks::fixed_page_set))]
    pub fn page_set(self, p: u64) -> bool
        requires { p < fixed_pages self.array.layout.array.header }
        ensures { result ≡ fixed_page_set (fixed_in self.entry.array) p }
    {
        let pos = self.array.behind_prefix();
        page_is_initialized(self.array.file, pos as usize, p as usize)
    }

    // The file's position of page p; past 2^64 - 1 it is 2^64 - 1.
    #[tactic(auto, unfolding(refusal::specs::Refusals::figure))]
    pub fn page_position(self, p: u64) -> u64
        ensures { result ≡ figure (fixed_page_position (fixed_in self.entry.array) p) }
    {
        let layout = self.array.layout;
        let begin = layout.array.header.data_block_address + layout.tested_extent();
        begin.saturating_add(layout.page_offset(p).unwrap_or(u64::MAX))
    }

    // Tests page p: 31, 20, 26.
    pub fn test_page(self, p: u64) -> Result<(), Refusal>
        requires { p < fixed_pages self.array.layout.array.header }
        ensures { result ≡ fixed_page_test (fixed_in self.entry.array) p }
    {
        let layout = self.array.layout;
        if layout.page_offset(p).is_none() {
            let stride = layout.page_stride().unwrap_or(u64::MAX);
            return Err(Refusal::SpanOverflow(p, stride));
        }
        test_structure(
            self.array.file,
            Kind::Page,
            self.page_position(p),
            layout.page_extent(p),
        )
    }
}
