#![tactic(auto)]
// The form of an index's elements: how many bytes an element has, and what stands in them.
ghost use Rattle.std.specs.Prelude.{◌≡◌, true, ◌&&◌, ◌+◌, ltb, Ok};
ghost use Rattle.element_form.specs.Form.{filtered, stride, size_bytes, room_test, element_size_test};

use fields::bytes::ensure_offset_size;
use refusal::Refusal;

// What an index says of its elements, and the size of an address.
#[derive(Clone, Copy)]
pub struct Form {
    // 0 for chunks without filters; any other client is filtered.
    pub client_id: u8,
    // The bytes of a filtered element.
    pub element_size: u8,
    pub offset_size: u64,
}

impl Form {
    // Whether elements have a size and a mask behind their address.
    pub fn is_filtered(self) -> bool
        ensures { result ≡ filtered self }
    {
        self.client_id != 0
    }

    // The bytes of an element.
    pub fn stride(self) -> u64
        ensures { result ≡ stride self }
    {
        if self.is_filtered() {
            return self.element_size as u64;
        }
        self.offset_size
    }

    // The bytes of a filtered element's size.
    pub fn size_bytes(self) -> u64
        requires { (element_size_test self ≡ Ok tt) × (filtered self ≡ true) }
        ensures { result ≡ size_bytes self }
    {
        self.element_size as u64 - 4 - self.offset_size
    }

    // Tests the size of elements: 28, then 1.
    pub fn test(self) -> Result<(), Refusal>
        ensures { result ≡ element_size_test self }
    {
        self.test_room()?;
        ensure_offset_size(self.offset_size)
    }

    // Tests that a filtered element has room for an address and a mask: 28.
    #[tactic(auto, unfolding(crate::specs::Form::room_test, refusal::specs::Refusals::refuse))]
    pub fn test_room(self) -> Result<(), Refusal>
        ensures { result ≡ room_test self }
    {
        if self.is_too_small() {
            Err(Refusal::ElementSize)
        } else {
            Ok(())
        }
    }

    // Whether a filtered element has no room for an address and a mask.
    fn is_too_small(self) -> bool
        ensures { result ≡ (filtered self && ltb self.element_size (self.offset_size + 4)) }
    {
        self.is_filtered() && (self.element_size as u64) < self.offset_size.saturating_add(4)
    }
}
