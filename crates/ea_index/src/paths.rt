// The path to a slot: the structures that lead to its place are tested, up to the position of its element.
ghost use Rattle.std.specs.Prelude.{◌≡◌, Ok};
ghost use Rattle.ea_blocks.specs.Values.{array_of, array_in};
ghost use Rattle.ea_blocks.specs.Structures.{array_test};
ghost use Rattle.ea_index.specs.Values.{ArrayEnds, BlockEntered};

use crate::in_block::SlotInBlock;
use ea_blocks::ExtensibleArray;
use ea_geometry::Place;
use ea_geometry::extents::Extents;
use ea_geometry::sizes::Sizes;
use fields::bytes::ensure_offset_size;
use refusal::Refusal;

// The path to a slot: it ends at no element, at the slot's, or with a refusal. The size of inline elements is tested
// before a position is computed: it leaves only offset sizes up to 8.
pub fn path_of(file: &[u8], array: ExtensibleArray, slot: u64) -> Result<Option<u64>, Refusal>
    requires { array_test (array_of file.now array) ≡ Ok tt }
    ensures { ArrayEnds (array_of file.now array) slot result }
{
    let parameters = array.geometry.parameters;
    let offset_size = array.geometry.offset_size;
    let sizes = Sizes { parameters };
    match sizes.place_of(slot) {
        Place::Inline(i) => {
            array.geometry.form().test()?;
            let extents = Extents { sizes, offset_size };
            Ok(Some(array.index_at + extents.inline_element_at(i)))
        }
        Place::Block {
            super_block: u,
            block: k,
            element: i,
        }
        | Place::Page {
            super_block: u,
            block: k,
            element: i,
            page: _,
            bit: _,
        } => {
            ensure_offset_size(offset_size)?;
            let array = array.in_file(file);
            let slot = SlotInBlock {
                array,
                slot,
                u,
                k,
                i,
            };
            slot.path()
        }
        Place::Nowhere => Ok(None),
    }
}

impl<'a> SlotInBlock<'a> {
    // The path to a slot in a data block: the super block, the data block, the element in that.
    fn path(self) -> Result<Option<u64>, Refusal>
        ensures { let s = self.entry in ArrayEnds (array_in s.array.array) s.slot result }
    {
        let Some(super_at) = self.array.enter_super(self.u)? else {
            return Ok(None);
        };
        let Some(at) = self.block_row(super_at).enter_block(self.k)? else {
            return Ok(None);
        };
        self.path_in_block(super_at, at)
    }

    // The end of that path, in its data block, which lies at `at`: the element, in its page where the block is read by
    // pages.
    fn path_in_block(self, super_at: Option<u64>, at: u64) -> Result<Option<u64>, Refusal>
        requires { BlockEntered (array_in self.array.array) self.u self.k super_at at }
        ensures { let s = self.entry in ArrayEnds (array_in s.array.array) s.slot result }
    {
        let extents = self.array.array.extents;
        if !extents.sizes.in_pages(self.u) {
            return Ok(Some(at + extents.block_element_at(self.i)));
        }
        let p = self.i / extents.sizes.page_elements();
        let Some(_) = self.page_row(super_at, at).enter_page(p)? else {
            return Ok(None);
        };
        Ok(Some(at + extents.paged_element_at(self.i)))
    }
}
