// How many bytes each structure takes, and where in it its parts lie.
ghost use Rattle.std.specs.Prelude.{◌≡◌, ◌*◌, ◌^◌, ◌<◌, ◌≤◌};
ghost use Rattle.refusal.specs.Refusals.{figure};
ghost use Rattle.ea_header.specs.Values.{Served};
ghost use Rattle.ea_geometry.specs.Sizes.{super_blocks, blocks, direct_super_blocks, page_elements, most_elements};
ghost use Rattle.ea_geometry.specs.Extents.{element_at, pointer_at, index_prefix};
ghost use Rattle.ea_geometry.specs.Extents.{inline_element_at, paged_element_at};
ghost use Rattle.ea_geometry.specs.Extents.{direct_pointers_at, super_pointers_at, index_extent, direct_pointer_at};
ghost use Rattle.ea_geometry.specs.Extents.{super_pointer_at, block_prefix, block_pointer_at, super_extent};
ghost use Rattle.ea_geometry.specs.Extents.{block_element_at};
ghost use Rattle.ea_geometry.specs.Extents.{data_extent, paged_head_extent, page_extent, page_at, paged_extent};

use crate::EaGeometry;
use crate::sizes::Sizes;

// How many bytes each structure takes, by sizes and an offset size that is at most 8.
#[derive(Clone, Copy)]
pub struct Extents {
    pub sizes: Sizes,
    pub offset_size: u64,
    pub ghost legal: { offset_size ≤ 8 },
}

impl Extents {
    // Where element i lies of elements that begin at `first`.
    pub fn element_at(self, first: u64, i: u64) -> u64
        requires { (first ≤ 2 ^ 63) × (i ≤ most_elements) }
        ensures { result ≡ element_at self.sizes.parameters self.offset_size first i }
    {
        let geometry = EaGeometry {
            parameters: self.sizes.parameters,
            offset_size: self.offset_size,
        };
        first + i * geometry.element_stride()
    }

    // Where pointer j lies of pointers that begin at `first`.
    pub fn pointer_at(self, first: u64, j: u64) -> u64
        requires { (first ≤ 2 ^ 63) × (j ≤ 2 ^ 33) }
        ensures { result ≡ pointer_at self.offset_size first j }
    {
        first + j * self.offset_size
    }

    // The index block before its elements.
    pub fn index_prefix(self) -> u64
        ensures { result ≡ index_prefix self.offset_size }
    {
        6 + self.offset_size
    }

    // Where in the index block inline element i lies, or, behind the last, what follows them.
    pub fn inline_element_at(self, i: u64) -> u64
        requires { i ≤ self.sizes.parameters.idx_blk_elmts }
        ensures { result ≡ inline_element_at self.sizes.parameters self.offset_size i }
    {
        self.element_at(self.index_prefix(), i)
    }

    // Where in the index block the pointers to data blocks begin.
    pub fn direct_pointers_at(self) -> u64
        ensures { result ≡ direct_pointers_at self.sizes.parameters self.offset_size }
    {
        self.inline_element_at(self.sizes.parameters.idx_blk_elmts as u64)
    }

    // Where in the index block the pointers to super blocks begin.
    pub fn super_pointers_at(self) -> u64
        ensures { result ≡ super_pointers_at self.sizes.parameters self.offset_size }
    {
        self.pointer_at(self.direct_pointers_at(), self.sizes.direct_pointers())
    }

    // Where in the index block the pointer to data block k of super block u lies.
    pub fn direct_pointer_at(self, u: u64, k: u64) -> u64
        requires { (u < direct_super_blocks self.sizes.parameters) × (k < blocks u) }
        ensures { result ≡ direct_pointer_at self.sizes.parameters self.offset_size u k }
    {
        self.pointer_at(self.direct_pointers_at(), self.sizes.blocks_before(u) + k)
    }

    // Where in the index block the pointer to super block u lies.
    pub fn super_pointer_at(self, u: u64) -> u64
        requires { (direct_super_blocks self.sizes.parameters ≤ u) × (u < super_blocks self.sizes.parameters) }
        ensures { result ≡ super_pointer_at self.sizes.parameters self.offset_size u }
    {
        self.pointer_at(
            self.super_pointers_at(),
            u - self.sizes.direct_super_blocks(),
        )
    }

    // A super block before its page bits, a data block before its elements.
    pub fn block_prefix(self) -> u64
        ensures { result ≡ block_prefix self.sizes.parameters self.offset_size }
    {
        6 + self.offset_size + (self.sizes.parameters.max_nelmts_bits as u64).div_ceil(8)
    }

    // Where in super block u the pointer to its data block k lies, or, behind the last, what follows them.
    pub fn block_pointer_at(self, u: u64, k: u64) -> u64
        requires { (u < super_blocks self.sizes.parameters) × (k ≤ blocks u) }
        ensures { result ≡ block_pointer_at self.sizes.parameters self.offset_size u k }
    {
        self.pointer_at(self.block_prefix() + self.sizes.bitmap_bytes(u), k)
    }

    // The bytes of super block u.
    pub fn super_extent(self, u: u64) -> u64
        requires { u < super_blocks self.sizes.parameters }
        ensures { result ≡ super_extent self.sizes.parameters self.offset_size u }
    {
        self.block_pointer_at(u, self.sizes.blocks(u)) + 4
    }

    // Where in an unpaged data block element i lies.
    pub fn block_element_at(self, i: u64) -> u64
        requires { i ≤ most_elements }
        ensures { result ≡ block_element_at self.sizes.parameters self.offset_size i }
    {
        self.element_at(self.block_prefix(), i)
    }

    // The bytes of an unpaged data block of super block u.
    pub fn data_extent(self, u: u64) -> u64
        requires { u < super_blocks self.sizes.parameters }
        ensures { result ≡ data_extent self.sizes.parameters self.offset_size u }
    {
        self.block_element_at(self.sizes.block_elements(u)) + 4
    }

    // The bytes of a paged data block before its pages.
    pub fn paged_head_extent(self) -> u64
        ensures { result ≡ paged_head_extent self.sizes.parameters self.offset_size }
    {
        self.block_prefix() + 4
    }

    // The bytes of a page.
    pub fn page_extent(self) -> u64
        ensures { result ≡ page_extent self.sizes.parameters self.offset_size }
    {
        self.element_at(0, self.sizes.page_elements()) + 4
    }

    // Where in a paged data block page p lies, or, behind the last, where the block ends.
    pub fn page_at(self, p: u64) -> u64
        requires { p * page_elements self.sizes.parameters ≤ most_elements }
        ensures { result ≡ page_at self.sizes.parameters self.offset_size p }
    {
        self.paged_head_extent() + p * self.page_extent()
    }

    // The bytes of a paged data block of super block u.
    pub fn paged_extent(self, u: u64) -> u64
        requires { u < super_blocks self.sizes.parameters }
        ensures { result ≡ paged_extent self.sizes.parameters self.offset_size u }
    {
        self.page_at(self.sizes.pages(u))
    }

    // Where in a paged data block element i lies.
    pub fn paged_element_at(self, i: u64) -> u64
        requires { i ≤ most_elements }
        ensures { result ≡ paged_element_at self.sizes.parameters self.offset_size i }
    {
        let n = self.sizes.page_elements();
        self.element_at(self.page_at(i / n), i % n)
    }
}

impl EaGeometry {
    // The bytes of the index block, for every offset size; past 2^64 - 1 it is 2^64 - 1.
    pub fn index_extent(self) -> u64
        requires { Served self.parameters }
        ensures { result ≡ figure (index_extent self.parameters self.offset_size) }
    {
        let parameters = self.parameters;
        let sizes = Sizes { parameters };
        let addresses = 1 + sizes.direct_pointers() + sizes.super_pointers();
        let pointers = addresses.saturating_mul(self.offset_size);
        let inline = self.parameters.idx_blk_elmts as u64;
        let elements = inline.saturating_mul(self.element_stride());
        pointers.saturating_add(10).saturating_add(elements)
    }
}
