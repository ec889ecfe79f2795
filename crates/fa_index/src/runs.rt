// Runs of slots: where in the file the elements of a slot and of those that follow it lie.
ghost use Rattle.std.specs.Prelude.{◌≡◌};
ghost use Rattle.elements.specs.Elements.{Elements};
ghost use Rattle.located.specs.Values.{RunOf};
ghost use Rattle.fa_geometry.specs.Layout.{fixed_form};
ghost use Rattle.fa_blocks.specs.Values.{fixed_in};
ghost use Rattle.fa_walk.specs.Walk.{fixed_located};
ghost use Rattle.fa_index.specs.Given.{TestedTo};

use fa_blocks::{ArrayInFile, PagedBlock, UnpagedBlock, never_stored};
use located::Run;

// The run that a slot begins, where the path to it is accepted: all entries from it on where nothing was ever stored
// or the data block is unpaged, else those that are left of its page.
pub fn run_of(array: ArrayInFile, slot: u64) -> Run
    requires { TestedTo (fixed_in array) slot }
    ensures { let a = fixed_in array.entry in
        (e : Elements) → e.file ≡ a.file → fixed_form a.header a.offset_size ≡ e.form
        → RunOf (fixed_located a e) slot result }
{
    let layout = array.layout;
    let left = layout.array.header.num_elements - slot;
    if never_stored(layout.array) {
        return Run::Gap(left);
    }
    if !layout.is_paged() {
        let pos = UnpagedBlock { array }.element_position(slot);
        return Run::Elements { pos, slots: left };
    }
    let block = PagedBlock { array };
    let page = layout.page_elements();
    let p = slot / page;
    let within = slot % page;
    let slots = layout.page_entries(p) - within;
    if !block.page_set(p) {
        return Run::Gap(slots);
    }
    let pos = block.page_position(p) + within * layout.array.element_stride();
    Run::Elements { pos, slots }
}
