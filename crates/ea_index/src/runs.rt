// Runs of slots: where in the file the elements of a slot and of those that follow it lie.
ghost use Rattle.std.specs.Prelude.{◌≡◌, Ok};
ghost use Rattle.ea_geometry.specs.Place.{place};
ghost use Rattle.ea_blocks.specs.Values.{array_in};
ghost use Rattle.ea_blocks.specs.Entered.{EnteredSuper};
ghost use Rattle.ea_index.specs.Values.{PathTested, BlockEntered, RunIn, slots_of, block_slots, run_slots};

use crate::in_block::SlotInBlock;
use ea_blocks::ArrayInFile;
use ea_geometry::Place;
use located::Run;

// The run that a slot begins, where the path to it is accepted.
pub fn run_of(array: ArrayInFile, slot: u64) -> Run
    requires { PathTested (array_in array.array) slot }
    ensures { let a = array_in array.entry.array in
        RunIn a slot result × (slots_of result ≡ run_slots a slot (place a.parameters slot)) }
{
    let extents = array.array.extents;
    match extents.sizes.place_of(slot) {
        Place::Inline(i) => Run::Elements {
            pos: array.array.index_at + extents.inline_element_at(i),
            slots: extents.sizes.parameters.idx_blk_elmts as u64 - i,
        },
        Place::Block {
            super_block: u,
            block: k,
            element: i,
        }
        | Place::Page {
            super_block: u,
            block: k,
            element: i,
            page: _,
            bit: _,
        } => {
            let slot = SlotInBlock {
                array,
                slot,
                u,
                k,
                i,
            };
            slot.run()
        }
        Place::Nowhere => Run::Gap(u64::MAX),
    }
}

impl<'a> SlotInBlock<'a> {
    // The run of a slot in a data block: a gap up to the next super block or data block, where the pointer to its own
    // is undefined.
    fn run(self) -> Run
        requires { PathTested (array_in self.array.array) self.slot }
        ensures { let s = self.entry in let a = array_in s.array.array in RunIn a s.slot result
            × (slots_of result ≡ block_slots a s.slot s.u s.k s.i) }
    {
        let sizes = self.array.array.extents.sizes;
        let Some(super_at) = self.find_super() else {
            return Run::Gap(sizes.first_slot(self.u + 1) - self.slot);
        };
        let Some(at) = self.block_row(super_at).block_pointer(self.k) else {
            return Run::Gap(sizes.block_elements(self.u) - self.i);
        };
        self.run_in_block(super_at, at)
    }

    // What stepping into its super block would find, which has passed its test or isn't there.
    fn find_super(self) -> Option<Option<u64>>
        requires { PathTested (array_in self.array.array) self.slot }
        ensures { let s = self.entry in EnteredSuper (array_in s.array.array) s.u (Ok result) }
    {
        if self.u < self.array.array.extents.sizes.direct_super_blocks() {
            return Some(None);
        }
        Some(Some(self.array.super_pointer(self.u)?))
    }

    // The run of a slot whose data block lies at `at`: up to the end of the block, or of the page that the element lies
    // in, where the block is read by pages.
    fn run_in_block(self, super_at: Option<u64>, at: u64) -> Run
        requires { PathTested (array_in self.array.array) self.slot
            × BlockEntered (array_in self.array.array) self.u self.k super_at at }
        ensures { let s = self.entry in let a = array_in s.array.array in RunIn a s.slot result
            × (slots_of result ≡ block_slots a s.slot s.u s.k s.i) }
    {
        let extents = self.array.array.extents;
        if !extents.sizes.in_pages(self.u) {
            let pos = at + extents.block_element_at(self.i);
            let slots = extents.sizes.block_elements(self.u) - self.i;
            return Run::Elements { pos, slots };
        }
        let page = extents.sizes.page_elements();
        let slots = page - self.i % page;
        if !self.page_row(super_at, at).page_set(self.i / page) {
            return Run::Gap(slots);
        }
        let pos = at + extents.paged_element_at(self.i);
        Run::Elements { pos, slots }
    }
}
