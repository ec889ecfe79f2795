#![tactic(auto)]
// The header of a fixed array.
ghost use Rattle.std.specs.Prelude.{◌≡◌, Ok};
ghost use Rattle.std.proofs.Common.{arith};
ghost use Rattle.refusal.specs.Outcome.{◌yields◌};
ghost use Rattle.refusal.specs.declared.Refusal.TheVariants.{FixedHeaderSignature};
ghost use Rattle.checksum.specs.Lookup3.{lookup3};
ghost use Rattle.fa_header.specs.Header.{fixed_header_bytes, fixed_header_at, fixed_header_test};
ghost use Rattle.fa_header.specs.Served.{fixed_served, fixed_served_test};

use fields::bytes::{read_address, read_le};
use refusal::Refusal;
use structures::header::{self, IndexHeader};

// What the header of a fixed array says: sizes, extents and places of its structures follow from it and the offset
// size alone.
#[derive(Clone, Copy)]
pub struct FixedArrayHeader {
    // 0 for chunks without filters; any other client is filtered.
    pub client_id: u8,
    // The bytes of an element.
    pub element_size: u8,
    // Page exponent: a page has 2^exponent elements.
    pub max_nelmts_bits: u8,
    // The number of entries.
    pub num_elements: u64,
    pub data_block_address: u64,
}

impl FixedArrayHeader {
    // Reads the header at an address of a file. In this order it is refused: 20 where it does not lie in the file
    // with the sizes as given, 34 and 22 for its signature and version, 2 and 1 for the sizes, 26 for its checksum.
    #[tactic(auto, unfolding(crate::specs::Header::fixed_header_test))]
    pub fn parse(
        file: &[u8],
        address: u64,
        offset_size: u64,
        length_size: u64,
    ) -> Result<Self, Refusal>
        ensures { result ≡ (fixed_header_test lookup3 file.now address offset_size length_size
            yields Ok (fixed_header_at file.now address offset_size length_size)) }
    {
        header::parse(file, address, offset_size, length_size)
    }

    // Whether the page exponent is within its limit.
    #[tactic(auto, unfolding(crate::specs::Served::fixed_served))]
    pub fn is_served(self) -> bool
        ensures { result ≡ fixed_served self }
    {
        self.max_nelmts_bits <= 32
    }

    // 27 where the header is not served.
    #[tactic(auto, unfolding(crate::specs::Served::fixed_served_test, refusal::specs::Refusals::refuse))]
    pub fn served_test(self) -> Result<(), Refusal>
        ensures { result ≡ fixed_served_test self }
    {
        if self.is_served() {
            Ok(())
        } else {
            Err(Refusal::HeaderNotServed)
        }
    }
}

impl IndexHeader for FixedArrayHeader {
    // "FAHD"
    const SIGNATURE: u32 = 0x4448_4146;

    const WRONG_SIGNATURE: Refusal = Refusal::FixedHeaderSignature;

    ghost SIGNATURE = { 0x4448_4146 };

    ghost WRONG_SIGNATURE = { FixedHeaderSignature };

    ghost bytes = { fixed_header_bytes };

    ghost at = { fixed_header_at };

    #[tactic(auto, unfolding(refusal::specs::Refusals::figure))]
    fn serialized_size(offset_size: u64, length_size: u64) -> u64 {
        length_size.saturating_add(12).saturating_add(offset_size)
    }

    #[tactic(auto, using(fields::proofs::Widths::width_le), unfolding(crate::specs::Header::fixed_header_at))]
    fn read_at(file: &[u8], pos: usize, offset_size: usize, length_size: usize) -> Self {
        let entries = read_le(file, pos + 8, length_size);
        let block = read_address(file, pos + 8 + length_size, offset_size);
        Self {
            client_id: file[pos + 5],
            element_size: file[pos + 6],
            max_nelmts_bits: file[pos + 7],
            num_elements: entries,
            data_block_address: block.value,
        }
    }

    ghost has_form = { λ o l. omega arith };
}
