// Stored addresses.
ghost use Rattle.std.specs.Prelude.{◌≡◌};
ghost use Rattle.fields.specs.Fields.{undefined};

// An address as a file stores it.
#[derive(Clone, Copy)]
pub struct Address {
    pub value: u64,
}

impl Address {
    // The undefined address of each width: all bits set.
    pub const UNDEFINED_2: Address = Address { value: 0xFFFF };

    pub const UNDEFINED_4: Address = Address { value: 0xFFFF_FFFF };

    pub const UNDEFINED_8: Address = Address {
        value: 0xFFFF_FFFF_FFFF_FFFF,
    };
}

// Whether an address that is stored in `width` bytes is undefined.
pub fn is_undefined_addr(addr: Address, width: u64) -> bool
    ensures { result ≡ undefined width addr.value }
{
    let undefined = match width {
        2 => Address::UNDEFINED_2,
        4 => Address::UNDEFINED_4,
        8 => Address::UNDEFINED_8,
        _ => return false,
    };
    addr.value == undefined.value
}
