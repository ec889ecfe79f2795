// The path to a slot: the structures that lead to its place are tested, up to the position of its element.
ghost use Rattle.std.specs.Prelude.{◌<◌};
ghost use Rattle.fa_geometry.specs.Layout.{fixed_form};
ghost use Rattle.fa_blocks.specs.Values.{fixed_in};
ghost use Rattle.fa_walk.specs.Walk.{fixed_located};
ghost use Rattle.walked_index.specs.PathEnds.{PathEnds};

use fa_blocks::{ArrayInFile, PagedBlock, UnpagedBlock, never_stored};
use refusal::Refusal;

// The path to one of the entries: it ends at no element, at the slot's, or with a refusal.
pub fn path_of(array: ArrayInFile, slot: u64) -> Result<Option<u64>, Refusal>
    requires { slot < array.layout.array.header.num_elements }
    ensures { let a = fixed_in array.entry in
        PathEnds (fixed_located a) a.file (fixed_form a.header a.offset_size) slot result }
{
    let layout = array.layout;
    if never_stored(layout.array) {
        return Ok(None);
    }
    array.test_block()?;
    if !layout.is_paged() {
        return Ok(Some(UnpagedBlock { array }.element_position(slot)));
    }
    let block = PagedBlock { array };
    let page = layout.page_elements();
    let Some(at) = block.enter_page(slot / page)? else {
        return Ok(None);
    };
    Ok(Some(at + slot % page * layout.array.element_stride()))
}
