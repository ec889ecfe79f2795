// The pointers and page bits by which the structures of an array are found.
ghost use Rattle.std.specs.Prelude.{◌≡◌, true, ◌+◌, ◌<◌, ◌≤◌, length};
ghost use Rattle.fields.specs.Fields.{is_width, address_at, undefined_at};
ghost use Rattle.ea_geometry.specs.Sizes.{super_blocks, blocks, direct_super_blocks, pages};
ghost use Rattle.ea_blocks.specs.Structures.{super_block_at, block_at, super_undefined, block_undefined, page_set};
ghost use Rattle.ea_blocks.specs.Values.{array_in, NamedAt, pointer_of};

use crate::ArrayInFile;
use crate::enter::{BlockRow, PageRow};
use fields::address::is_undefined_addr;
use fields::bytes::read_address;
use structures::page_bits::page_is_initialized;

impl<'a> ArrayInFile<'a> {
    // What the pointer in the index block to super block u says: nothing, or the file's position of that.
    pub fn super_pointer(self, u: u64) -> Option<u64>
        requires { (direct_super_blocks self.array.extents.sizes.parameters ≤ u)
            × (u < super_blocks self.array.extents.sizes.parameters) }
        ensures { let a = array_in self.entry.array in result ≡ pointer_of (super_undefined a u) (super_block_at a u) }
    {
        let extents = self.array.extents;
        let pos = self.array.index_at + extents.super_pointer_at(u);
        read_pointer(self.array.file, pos, extents.offset_size)
    }
}

impl<'a> BlockRow<'a> {
    // The pointer to data block k: in the index block, or in the super block.
    pub fn block_pointer(self, k: u64) -> Option<u64>
        requires { k < blocks self.u }
        ensures { let r = self.entry in let a = array_in r.array.array in NamedAt a r.u r.super_at
            → result ≡ pointer_of (block_undefined a r.u k) (block_at a r.u k) }
    {
        let array = self.array.array;
        let width = array.extents.offset_size;
        match self.super_at {
            None => {
                let pos = array.index_at + array.extents.direct_pointer_at(self.u, k);
                read_pointer(array.file, pos, width)
            }
            Some(at) => {
                let pos = at + array.extents.block_pointer_at(self.u, k);
                read_pointer(array.file, pos, width)
            }
        }
    }
}

impl<'a> PageRow<'a> {
    // Whether page p is set, in the page bits of the super block.
    pub fn page_set(self, p: u64) -> bool
        requires { p < pages self.array.extents.sizes.parameters self.u }
        ensures { let r = self.entry in let a = array_in r.array in r.super_at ≡ super_block_at a r.u
            → result ≡ page_set a r.u r.k p }
    {
        let extents = self.array.extents;
        let pos = self.super_at + extents.block_prefix();
        let bit = extents.sizes.bit_number(self.u, self.k, p);
        page_is_initialized(self.array.file, pos as usize, bit as usize)
    }
}

// The pointer in the `width` bytes from pos on.
fn read_pointer(file: &[u8], pos: u64, width: u64) -> Option<u64>
    requires { (pos + width ≤ length file.now) × (is_width width ≡ true) }
    ensures { result
        ≡ pointer_of (undefined_at file.now pos width) (address_at file.now pos width) }
{
    let address = read_address(file, pos as usize, width as usize);
    if is_undefined_addr(address, width) {
        None
    } else {
        Some(address.value)
    }
}
