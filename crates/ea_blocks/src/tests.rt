// The tests of an array's structures.
ghost use Rattle.std.specs.Prelude.{◌≡◌, false, ℕ, ◌<◌};
ghost use Rattle.ea_header.specs.Values.{Served};
ghost use Rattle.ea_geometry.specs.Sizes.{super_blocks};
ghost use Rattle.ea_geometry.specs.Place.{in_pages};
ghost use Rattle.ea_blocks.specs.Values.{array_of, array_in};
ghost use Rattle.ea_blocks.specs.Structures.{index_block, array_test, super_block, data_block, data_page, test_of};
ghost use Rattle.ea_blocks.specs.Structures.{super_block_at, block_at, data_page_at};

use crate::{BoundedArray, ExtensibleArray};
use checksum::TwoChecked;
use refusal::Refusal;
use structures::{Kind, test_structure, test_two_structures};

// "EAIB", "EASB", "EADB"
const INDEX_BLOCK: Kind = Kind::Signed {
    wrong: Refusal::IndexBlockSignature,
    signature: 0x4249_4145,
};

const SUPER_BLOCK: Kind = Kind::Signed {
    wrong: Refusal::SuperBlockSignature,
    signature: 0x4253_4145,
};

const DATA_BLOCK: Kind = Kind::Signed {
    wrong: Refusal::DataBlockSignature,
    signature: 0x4244_4145,
};

// The way into an array: its parameters' test, then its index block's.
pub fn test_array(file: &[u8], array: ExtensibleArray) -> Result<(), Refusal>
    ensures { result ≡ array_test (array_of file.now array) }
{
    array.geometry.parameters.served_test()?;
    test_index_block(file, array)
}

// Tests the index block.
pub fn test_index_block(file: &[u8], array: ExtensibleArray) -> Result<(), Refusal>
    requires { Served array.geometry.parameters }
    ensures { let a = array_of file.now array in result ≡ test_of a index_block }
{
    test_structure(
        file,
        INDEX_BLOCK,
        array.index_at,
        array.geometry.index_extent(),
    )
}

impl<'a> BoundedArray<'a> {
    // Tests super block u, which lies at `at`.
    pub fn test_super_block(self, u: u64, at: u64) -> Result<(), Refusal>
        requires { u < super_blocks self.extents.sizes.parameters }
        ensures { let a = array_in self.entry in at ≡ super_block_at a u → result ≡ test_of a (super_block u) }
    {
        test_structure(self.file, SUPER_BLOCK, at, self.extents.super_extent(u))
    }

    // Tests a data block of super block u, which lies at `at`: its head alone, where it is read by pages.
    pub fn test_data_block(self, u: u64, at: u64) -> Result<(), Refusal>
        requires { u < super_blocks self.extents.sizes.parameters }
        ensures { (k : ℕ) → let a = array_in self.entry in at ≡ block_at a u k → result ≡ test_of a (data_block u k) }
    {
        let len = if self.extents.sizes.in_pages(u) {
            self.extents.paged_head_extent()
        } else {
            self.extents.data_extent(u)
        };
        test_structure(self.file, DATA_BLOCK, at, len)
    }

    // Tests two data blocks of super block u, which aren't read by pages and lie at `at` and `other`.
    pub fn test_two_blocks(self, u: u64, at: u64, other: u64) -> TwoChecked
        requires { (u < super_blocks self.extents.sizes.parameters)
            × (in_pages self.extents.sizes.parameters u ≡ false) }
        ensures { (k n : ℕ) → let a = array_in self.entry in at ≡ block_at a u k
            → other ≡ block_at a u n
            → (result.first ≡ test_of a (data_block u k)) × (result.second ≡ test_of a (data_block u n)) }
    {
        test_two_structures(
            self.file,
            DATA_BLOCK,
            at,
            other,
            self.extents.data_extent(u),
        )
    }

    // Tests a page, which lies at `at`.
    pub fn test_page(self, at: u64) -> Result<(), Refusal>
        ensures { (u k p : ℕ) → let a = array_in self.entry in at ≡ data_page_at a u k p
            → result ≡ test_of a (data_page u k p) }
    {
        test_structure(self.file, Kind::Page, at, self.extents.page_extent())
    }

    // Tests two pages, which lie at `at` and `other`.
    pub fn test_two_pages(self, at: u64, other: u64) -> TwoChecked
        ensures { (u k p n : ℕ) → let a = array_in self.entry in at ≡ data_page_at a u k p
            → other ≡ data_page_at a u k n
            → (result.first ≡ test_of a (data_page u k p)) × (result.second ≡ test_of a (data_page u k n)) }
    {
        test_two_structures(self.file, Kind::Page, at, other, self.extents.page_extent())
    }
}
