// The walk that tests and counts.
ghost use Rattle.std.specs.Prelude.{◌≡◌, false, List, ℕ};
ghost use Rattle.refusal.specs.Values.{counted_of};
ghost use Rattle.fields.specs.Fields.{is_width};
ghost use Rattle.chunk_grid.specs.Grid.{Grid};
ghost use Rattle.elements.specs.Values.{elements_of, Reads};
ghost use Rattle.ea_geometry.specs.Extents.{form_of};
ghost use Rattle.ea_blocks.specs.Values.{array_of};
ghost use Rattle.ea_walk.specs.Walk.{from_inline, walk};

use crate::count_blocks;
use ea_blocks::ExtensibleArray;
use ea_blocks::tests::test_array;
use element_runs::count::count_elements;
use elements::ElementReader;
use fields::bytes::is_width;
use refusal::Refusal;

// Tests the structures of an array in slot order, and counts the records of its elements.
pub fn count_walk(
    file: &[u8],
    array: ExtensibleArray,
    reader: &ElementReader,
) -> Result<u64, Refusal>
    requires { form_of array.geometry.parameters array.geometry.offset_size ≡ reader.now.form }
    ensures { (grid : Grid) (n : ℕ) → Reads reader.now grid n
        → result ≡ counted_of (walk (array_of file.now array) (elements_of file.now reader.now grid n)) }
{
    test_array(file, array)?;
    if !is_width(array.geometry.offset_size) {
        return count_unreadable(array, reader);
    }
    let pointed = array.in_file(file);
    let extents = pointed.array.extents;
    let pos = array.index_at + extents.inline_element_at(0);
    let inline = array.geometry.parameters.idx_blk_elmts as u64;
    let n = count_elements(file, pos, inline, 0, reader)?;
    count_blocks(pointed, reader, n, 0, extents.sizes.super_blocks())
}

// What is behind the index block's test where the offset size isn't a width: the refusal of the first element, or of
// the first pointer where there are no inline elements; nothing where the count is 0.
fn count_unreadable(array: ExtensibleArray, reader: &ElementReader) -> Result<u64, Refusal>
    requires { (form_of array.geometry.parameters array.geometry.offset_size ≡ reader.now.form)
        × (is_width array.geometry.offset_size ≡ false) }
    ensures { (file : List ℕ) (grid : Grid) (n : ℕ)
        → result ≡ counted_of (from_inline (array_of file array) (elements_of file reader.now grid n)) }
{
    if reader.count == 0 {
        return Ok(0);
    }
    if array.geometry.parameters.idx_blk_elmts == 0 {
        return Err(Refusal::OffsetSize(array.geometry.offset_size));
    }
    reader.form.test()?;
    // No element's size passes that test: the offset size isn't a width.
    Ok(0)
}
