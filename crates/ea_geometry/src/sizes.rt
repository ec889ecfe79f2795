// How many super blocks, data blocks, elements and pages there are.
ghost use Rattle.std.specs.Prelude.{◌≡◌, ◌<◌, ◌≤◌};
ghost use Rattle.ea_header.specs.Log.{log2};
ghost use Rattle.ea_header.specs.Values.{Served};
ghost use Rattle.ea_geometry.specs.Sizes.{super_blocks, blocks, block_elements, direct_super_blocks, blocks_before};
ghost use Rattle.ea_geometry.specs.Sizes.{pages, bitmap_bytes, bit_number};
ghost use Rattle.ea_geometry.specs.Sizes.{direct_pointers, super_pointers, elements_before, page_elements, over_page};

use crate::EaGeometry;
use ea_header::Parameters;

// How many of each there are, by parameters that are served.
#[derive(Clone, Copy)]
pub struct Sizes {
    pub parameters: Parameters,
    pub ghost served: { Served parameters },
}

// The elements of the smallest data block, of parameters that need not be served.
fn least_elements(parameters: Parameters) -> u64
    ensures { result ≡ parameters.min_dblk_nelmts }
{
    parameters.min_dblk_nelmts as u64
}

impl EaGeometry {
    // The elements of the smallest data block.
    pub fn least_block_elements(self) -> u64
        ensures { result ≡ self.parameters.min_dblk_nelmts }
    {
        least_elements(self.parameters)
    }
}

impl Sizes {
    // The elements of the smallest data block.
    pub fn least_block_elements(self) -> u64
        ensures { result ≡ self.parameters.min_dblk_nelmts }
    {
        least_elements(self.parameters)
    }

    // log2 of the least block elements.
    pub fn log2_least(self) -> u64
        ensures { result ≡ log2 self.parameters.min_dblk_nelmts }
    {
        u64::trailing_zeros(self.least_block_elements()) as u64
    }

    // How many super blocks there are.
    pub fn super_blocks(self) -> u64
        ensures { result ≡ super_blocks self.parameters }
    {
        let log = self.log2_least();
        let bits = self.parameters.max_nelmts_bits as u64;
        bits.saturating_sub(log) + 1
    }

    // The data blocks of super block u.
    pub fn blocks(self, u: u64) -> u64
        requires { u < super_blocks self.parameters }
        ensures { result ≡ blocks u }
    {
        1 << (u / 2)
    }

    // The elements of each data block of super block u.
    pub fn block_elements(self, u: u64) -> u64
        requires { u < super_blocks self.parameters }
        ensures { result ≡ block_elements self.parameters u }
    {
        self.least_block_elements() << ((u + 1) / 2)
    }

    // How many super blocks have their data blocks named in the index block.
    pub fn direct_super_blocks(self) -> u64
        ensures { result ≡ direct_super_blocks self.parameters }
    {
        let minimum = self.parameters.super_blk_min_nelmts as u64;
        minimum.min(self.super_blocks())
    }

    // The data blocks of the super blocks before u.
    pub fn blocks_before(self, u: u64) -> u64
        requires { u ≤ super_blocks self.parameters }
        ensures { result ≡ blocks_before u }
    {
        ((1 << ((u + 1) / 2)) - 1) + ((1 << (u / 2)) - 1)
    }

    // How many data blocks the index block names.
    pub fn direct_pointers(self) -> u64
        ensures { result ≡ direct_pointers self.parameters }
    {
        self.blocks_before(self.direct_super_blocks())
    }

    // How many super blocks the index block names.
    pub fn super_pointers(self) -> u64
        ensures { result ≡ super_pointers self.parameters }
    {
        self.super_blocks() - self.direct_super_blocks()
    }

    // The elements of the super blocks before u.
    pub fn elements_before(self, u: u64) -> u64
        requires { u ≤ super_blocks self.parameters }
        ensures { result ≡ elements_before self.parameters u }
    {
        self.least_block_elements() * ((1 << u) - 1)
    }

    // The elements of a page.
    pub fn page_elements(self) -> u64
        ensures { result ≡ page_elements self.parameters }
    {
        1 << (self.parameters.max_dblk_nelmts_bits as u64)
    }

    // Whether a data block of super block u has more elements than a page.
    pub fn over_page(self, u: u64) -> bool
        requires { u < super_blocks self.parameters }
        ensures { result ≡ over_page self.parameters u }
    {
        self.page_elements() < self.block_elements(u)
    }

    // The pages of each data block of super block u.
    pub fn pages(self, u: u64) -> u64
        requires { u < super_blocks self.parameters }
        ensures { result ≡ pages self.parameters u }
    {
        self.block_elements(u) >> (self.parameters.max_dblk_nelmts_bits as u64)
    }

    // The bytes of the page bits of super block u.
    pub fn bitmap_bytes(self, u: u64) -> u64
        requires { u < super_blocks self.parameters }
        ensures { result ≡ bitmap_bytes self.parameters u }
    {
        if self.over_page(u) {
            return self.blocks(u) * self.pages(u).div_ceil(8);
        }
        0
    }

    // The number of the bit of page p of data block k of super block u.
    pub fn bit_number(self, u: u64, k: u64, p: u64) -> u64
        requires { (u < super_blocks self.parameters) × (k < blocks u) × (p < pages self.parameters u) }
        ensures { result ≡ bit_number self.parameters u k p }
    {
        k * self.pages(u) + p
    }
}
