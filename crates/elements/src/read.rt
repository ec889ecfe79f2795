// One element of an index: its tests, and what it holds.
ghost use Rattle.std.specs.Prelude.{◌≡◌, List, ℕ, ◌+◌, ◌≤◌, length, Ok, true};
ghost use Rattle.refusal.specs.Outcome.{◌yields◌};
ghost use Rattle.fields.specs.Fields.{address_at, size_test};
ghost use Rattle.refusal.specs.Refusals.{figure};
ghost use Rattle.chunk_grid.specs.Grid.{Grid};
ghost use Rattle.chunk_grid.specs.Values.{in_extent, offsets_of};
ghost use Rattle.element_form.specs.Form.{stride};
ghost use Rattle.elements.specs.Elements.{chunk_bytes, entry_at, entry_test, element};
ghost use Rattle.elements.specs.Values.{found_of, recorded, elements_of, Reads};

use crate::{ElementReader, SizedReader};
use fields::address::is_undefined_addr;
use fields::bytes::{read_address, read_le, read_u32_le};
use fields::convert::u32_from;
use index::Entry;
use refusal::Refusal;

// The element of a slot at pos.
pub fn read_element(
    file: &[u8],
    pos: usize,
    slot: u64,
    reader: &ElementReader,
) -> Result<Option<Entry>, Refusal>
    requires { pos + stride reader.now.form ≤ length file.now }
    ensures { (grid : Grid) (n : ℕ) → Reads reader.now grid n
        → result ≡ found_of (element (elements_of file.now reader.now grid n) pos slot) }
{
    let sized = reader.sized()?;
    let width = reader.form.offset_size;
    let address = read_address(file, pos, width as usize);
    if is_undefined_addr(address, width) {
        return Ok(None);
    }
    let mut offsets = [0u64; 32];
    if !reader.reach(&mut offsets, slot)? {
        return Ok(None);
    }
    read_entry(file, pos, &sized, address.value)
}

// The element at pos of a slot that lies in the present extents.
#[inline(always)]
pub fn read_inside_element(
    file: &[u8],
    pos: usize,
    sized: &SizedReader,
) -> Result<Option<Entry>, Refusal>
    requires { pos + stride sized.now.reader.form ≤ length file.now }
    ensures { let reader = sized.now.reader in
        (grid : Grid) (n s : ℕ) → reader.chunk_bytes ≡ figure (chunk_bytes grid n)
        → offsets_of (in_extent grid s) ≡ Ok true
        → result ≡ found_of (element (elements_of file.now reader grid n) pos s) }
{
    let width = sized.reader.form.offset_size;
    let address = read_address(file, pos, width as usize);
    if is_undefined_addr(address, width) {
        return Ok(None);
    }
    read_entry(file, pos, sized, address.value)
}

// The entry at pos, whose address is read: 29, then 30. Filtered, its size and its mask lie behind the address.
fn read_entry(
    file: &[u8],
    pos: usize,
    sized: &SizedReader,
    address: u64,
) -> Result<Option<Entry>, Refusal>
    requires { (pos + stride sized.now.reader.form ≤ length file.now)
        × (address ≡ address_at file.now pos sized.now.reader.form.offset_size) }
    ensures { let reader = sized.now.reader in
        (grid : Grid) (n : ℕ) (corner : List ℕ) → reader.chunk_bytes ≡ figure (chunk_bytes grid n)
        → (let e = elements_of file.now reader grid n in
        result ≡ found_of (entry_test e pos yields recorded corner (entry_at e pos))) }
{
    let form = sized.reader.form;
    if !form.is_filtered() {
        return entry_of(address, sized.reader.chunk_bytes, 0);
    }
    let width = form.size_bytes();
    if 8 < width {
        return Err(Refusal::SizeField);
    }
    let at = pos + form.offset_size as usize;
    let size = read_le(file, at, width as usize);
    let mask = read_u32_le(file, at + width as usize);
    entry_of(address, size, mask)
}

// The entry of these numbers: 30 where 32 bits don't hold the size.
#[tactic(auto, using(crate::proofs::Sized::entry_narrow, crate::proofs::Sized::entry_too_wide))]
fn entry_of(address: u64, size: u64, mask: u32) -> Result<Option<Entry>, Refusal>
    ensures { (corner : List ℕ)
        → result ≡ found_of (size_test size
        yields recorded corner (record { address = address; size = size; mask = mask })) }
{
    let size = u32_from(size)?;
    Ok(Some(Entry {
        address,
        size,
        mask,
    }))
}
