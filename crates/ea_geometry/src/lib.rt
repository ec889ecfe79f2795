#![tactic(auto)]
// The geometry of an extensible array: how many super blocks, data blocks, elements and pages it has, how many bytes
// each structure takes, where its parts lie, and the place of a slot.
ghost use Rattle.std.specs.Prelude.{◌≡◌};
ghost use Rattle.ea_geometry.specs.Extents.{form_of, element_stride};

use ea_header::{ExtensibleArrayHeader, Parameters};
use element_form::Form;

pub mod extents;
pub mod sizes;
mod slots;

// All that sizes and positions follow from, as a header gives it: nothing of it is tested.
#[derive(Clone, Copy)]
pub struct EaGeometry {
    pub parameters: Parameters,
    pub offset_size: u64,
}

// Where a slot's element lies.
#[derive(Clone, Copy, PartialEq, Eq)]
pub enum Place {
    // This element of the index block.
    Inline(u64),
    // Element `element` of data block `block` of super block `super_block`, in a block that is read unpaged.
    Block {
        super_block: u64,
        block: u64,
        element: u64,
    },
    // The same in a paged block that a super block names: it lies in page `page`, whose bit is `bit`.
    Page {
        super_block: u64,
        block: u64,
        element: u64,
        page: u64,
        bit: u64,
    },
    // The array has no such slot.
    Nowhere,
}

impl EaGeometry {
    pub fn from_header(header: ExtensibleArrayHeader, offset_size: u64) -> Self
        ensures { (result.parameters ≡ header.parameters) × (result.offset_size ≡ offset_size) }
    {
        let parameters = header.parameters;
        Self {
            parameters,
            offset_size,
        }
    }

    // The form of the array's elements.
    pub fn form(self) -> Form
        ensures { result ≡ form_of self.parameters self.offset_size }
    {
        Form {
            client_id: self.parameters.client_id,
            element_size: self.parameters.element_size,
            offset_size: self.offset_size,
        }
    }

    // The bytes of an element.
    pub fn element_stride(self) -> u64
        ensures { result ≡ element_stride self.parameters self.offset_size }
    {
        self.form().stride()
    }
}
