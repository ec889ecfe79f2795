// A slot in a data block, and the rows that the way to its element leads through.
ghost use Rattle.std.specs.Prelude.{◌≡◌, true, Ok, Some};
ghost use Rattle.ea_geometry.specs.Place.{in_pages};
ghost use Rattle.ea_geometry.specs.Slots.{InBlock};
ghost use Rattle.ea_blocks.specs.Values.{array_in};
ghost use Rattle.ea_blocks.specs.Entered.{EnteredSuper};
ghost use Rattle.ea_index.specs.Values.{BlockEntered};

use ea_blocks::ArrayInFile;
use ea_blocks::enter::{BlockRow, PageRow};

// A slot of an array in a file: its element is element i of data block k of super block u.
#[derive(Clone, Copy)]
pub struct SlotInBlock<'a> {
    pub array: ArrayInFile<'a>,
    pub slot: u64,
    pub u: u64,
    pub k: u64,
    pub i: u64,
    pub ghost within: { InBlock array.array.extents.sizes.parameters slot u k i },
}

impl<'a> SlotInBlock<'a> {
    // The data blocks of its super block, which was stepped into.
    pub fn block_row(self, super_at: Option<u64>) -> BlockRow<'a>
        requires { EnteredSuper (array_in self.array.array) self.u (Ok (Some super_at)) }
        ensures { let s = self.entry in (result.array ≡ s.array) × (result.u ≡ s.u) × (result.super_at ≡ super_at) }
    {
        BlockRow {
            array: self.array,
            u: self.u,
            super_at,
        }
    }

    // The pages of its data block, which was stepped into at `at`. (The index block names no data block that is read by
    // pages.)
    pub fn page_row(self, super_at: Option<u64>, at: u64) -> PageRow<'a>
        requires { BlockEntered (array_in self.array.array) self.u self.k super_at at
            × (in_pages self.array.array.extents.sizes.parameters self.u ≡ true) }
        ensures { let s = self.entry in (result.array ≡ s.array.array) × (result.u ≡ s.u)
            × (super_at ≡ Some result.super_at) × (result.k ≡ s.k) × (result.at ≡ at) }
    {
        PageRow {
            array: self.array.array,
            u: self.u,
            super_at: super_at.unwrap(),
            k: self.k,
            at,
        }
    }
}
