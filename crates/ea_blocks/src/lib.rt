#![tactic(auto)]
// The blocks and pages of an extensible array.
ghost use Rattle.std.specs.Prelude.{◌≡◌, true, ◌+◌, ◌≤◌, length};
ghost use Rattle.fields.specs.Fields.{is_width};
ghost use Rattle.ea_geometry.specs.Extents.{index_extent};
ghost use Rattle.ea_blocks.specs.Values.{headed, array_of, array_in, IndexInFile};

use ea_geometry::EaGeometry;
use ea_geometry::extents::Extents;
use ea_geometry::sizes::Sizes;
use ea_header::ExtensibleArrayHeader;

pub mod enter;
pub mod pointers;
pub mod tests;

// An array: its geometry, and the file's position of its index block.
#[derive(Clone, Copy)]
pub struct ExtensibleArray {
    pub geometry: EaGeometry,
    pub index_at: u64,
}

// An array in a file, whose extents fit 64 bits.
#[derive(Clone, Copy)]
pub struct BoundedArray<'a> {
    pub file: &'a [u8],
    pub extents: Extents,
    pub index_at: u64,
}

// The same where the offset size is a width and the index block lies in the file: the pointers in it can be read.
#[derive(Clone, Copy)]
pub struct ArrayInFile<'a> {
    pub array: BoundedArray<'a>,
    pub ghost wide: { is_width array.extents.offset_size ≡ true },
    pub ghost inside: { array.index_at + index_extent array.extents.sizes.parameters array.extents.offset_size
        ≤ length array.file.now },
}

impl ExtensibleArray {
    // The array of a header, whose addresses have this size.
    pub fn from_header(header: ExtensibleArrayHeader, offset_size: u64) -> Self
        ensures { result ≡ headed header offset_size }
    {
        Self {
            geometry: EaGeometry::from_header(header, offset_size),
            index_at: header.index_block_address,
        }
    }

    // The array in a file that holds its index block.
    pub fn in_file(self, file: &[u8]) -> ArrayInFile
        requires { IndexInFile file.now self }
        ensures { array_in result.array ≡ array_of file.now self }
    {
        let parameters = self.geometry.parameters;
        let extents = Extents {
            sizes: Sizes { parameters },
            offset_size: self.geometry.offset_size,
        };
        let index_at = self.index_at;
        ArrayInFile {
            array: BoundedArray {
                file,
                extents,
                index_at,
            },
        }
    }
}
