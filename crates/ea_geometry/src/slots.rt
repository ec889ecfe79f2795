// The place of a slot.
ghost use Rattle.std.specs.Prelude.{◌≡◌, ◌-◌, ◌^◌, ◌<◌, ◌≤◌};
ghost use Rattle.ea_geometry.specs.Sizes.{super_blocks, blocks, block_elements};
ghost use Rattle.ea_geometry.specs.Place.{super_of, in_pages, place_in, place};
ghost use Rattle.ea_geometry.specs.Slots.{first_slot, capacity};

use crate::Place;
use crate::sizes::Sizes;

impl Sizes {
    // The first slot of super block u; behind the last, the number of slots.
    pub fn first_slot(self, u: u64) -> u64
        requires { u ≤ super_blocks self.parameters }
        ensures { result ≡ first_slot self.parameters u }
    {
        self.parameters.idx_blk_elmts as u64 + self.elements_before(u)
    }

    // How many slots the array has at most.
    pub fn capacity(self) -> u64
        ensures { result ≡ capacity self.parameters }
    {
        self.first_slot(self.super_blocks())
    }

    // The super block of element e behind the inline ones.
    fn super_block_of(self, e: u64) -> u64
        requires { e < 2 ^ 64 - 1 }
        ensures { result ≡ super_of self.parameters e }
    {
        63 - u64::leading_zeros(e / self.least_block_elements() + 1) as u64
    }

    // Whether the data blocks of super block u are read by pages.
    pub fn in_pages(self, u: u64) -> bool
        requires { u < super_blocks self.parameters }
        ensures { result ≡ in_pages self.parameters u }
    {
        if u < self.direct_super_blocks() {
            return false;
        }
        self.over_page(u)
    }

    // The place of element i of data block k of super block u.
    fn place_in(self, u: u64, k: u64, i: u64) -> Place
        requires { (u < super_blocks self.parameters) × (k < blocks u) × (i < block_elements self.parameters u) }
        ensures { result ≡ place_in self.parameters u k i }
    {
        if self.in_pages(u) {
            let page = i / self.page_elements();
            let bit = self.bit_number(u, k, page);
            return Place::Page {
                super_block: u,
                block: k,
                element: i,
                page,
                bit,
            };
        }
        Place::Block {
            super_block: u,
            block: k,
            element: i,
        }
    }

    // The place of a slot.
    pub fn place_of(self, slot: u64) -> Place
        ensures { result ≡ place self.parameters slot }
    {
        let inline = self.parameters.idx_blk_elmts as u64;
        if slot < inline {
            return Place::Inline(slot);
        }
        if self.capacity() <= slot {
            return Place::Nowhere;
        }
        let e = slot - inline;
        let u = self.super_block_of(e);
        let x = e - self.elements_before(u);
        let n = self.block_elements(u);
        self.place_in(u, x / n, x % n)
    }
}
