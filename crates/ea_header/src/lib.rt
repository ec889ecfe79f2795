#![tactic(auto)]
// The header of an extensible array.
ghost use Rattle.std.specs.Prelude.{◌≡◌, ◌+◌, ◌≤◌, length, Ok};
ghost use Rattle.std.proofs.Common.{arith};
ghost use Rattle.refusal.specs.Outcome.{◌yields◌};
ghost use Rattle.refusal.specs.declared.Refusal.TheVariants.{HeaderSignature};
ghost use Rattle.checksum.specs.Lookup3.{lookup3};
ghost use Rattle.ea_header.specs.Header.{header_bytes, parameters_at, header_at, header_test};
ghost use Rattle.ea_header.specs.Served.{served, served_test};

use fields::bytes::{read_address, read_le};
use refusal::Refusal;
use structures::header::{self, IndexHeader};

// The parameters of an extensible array: sizes, extents and places of its structures follow from them and the offset
// size alone.
#[derive(Clone, Copy)]
pub struct Parameters {
    // 0 for chunks without filters; any other client is filtered.
    pub client_id: u8,
    // The bytes of an element.
    pub element_size: u8,
    // Max bits: with the least block elements it gives the number of super blocks.
    pub max_nelmts_bits: u8,
    // The inline count: how many elements the index block holds.
    pub idx_blk_elmts: u8,
    // Least block elements: how many elements the smallest data block has.
    pub min_dblk_nelmts: u8,
    // The super block minimum: how many super blocks have their data blocks named in the index block.
    pub super_blk_min_nelmts: u8,
    // Page exponent: a page has 2^exponent elements.
    pub max_dblk_nelmts_bits: u8,
}

// What the header of an extensible array says, apart from the statistics that no reader needs.
#[derive(Clone, Copy)]
pub struct ExtensibleArrayHeader {
    pub parameters: Parameters,
    // The published count.
    pub num_elements: u64,
    pub index_block_address: u64,
}

impl ExtensibleArrayHeader {
    // Reads the header at an address of a file. In this order it is refused: 20 where it does not lie in the file
    // with the sizes as given, 21 and 22 for its signature and version, 2 and 1 for the sizes, 26 for its checksum.
    #[tactic(auto, unfolding(crate::specs::Header::header_test))]
    pub fn parse(
        file: &[u8],
        address: u64,
        offset_size: u64,
        length_size: u64,
    ) -> Result<Self, Refusal>
        ensures { result ≡ (header_test lookup3 file.now address offset_size length_size
            yields Ok (header_at file.now address offset_size length_size)) }
    {
        header::parse(file, address, offset_size, length_size)
    }
}

impl IndexHeader for ExtensibleArrayHeader {
    // "EAHD"
    const SIGNATURE: u32 = 0x4448_4145;

    const WRONG_SIGNATURE: Refusal = Refusal::HeaderSignature;

    ghost SIGNATURE = { 0x4448_4145 };

    ghost WRONG_SIGNATURE = { HeaderSignature };

    ghost bytes = { header_bytes };

    ghost at = { header_at };

    #[tactic(auto, unfolding(refusal::specs::Refusals::figure))]
    fn serialized_size(offset_size: u64, length_size: u64) -> u64 {
        let statistics = length_size.saturating_mul(6);
        statistics.saturating_add(16).saturating_add(offset_size)
    }

    fn read_at(file: &[u8], pos: usize, offset_size: usize, length_size: usize) -> Self {
        let count = read_le(file, pos + 12 + 4 * length_size, length_size);
        let index = read_address(file, pos + 12 + 6 * length_size, offset_size);
        Self {
            parameters: read_parameters(file, pos),
            num_elements: count,
            index_block_address: index.value,
        }
    }

    ghost has_form = { λ o l. omega arith };
}

impl Parameters {
    // Whether the least block elements are a power of two, and bits, minimum and page exponent within their limits.
    pub fn is_served(self) -> bool
        ensures { result ≡ served self }
    {
        if !self.min_dblk_nelmts.is_power_of_two() {
            return false;
        }
        if 62 < self.max_nelmts_bits {
            return false;
        }
        if 32 < self.super_blk_min_nelmts {
            return false;
        }
        self.max_dblk_nelmts_bits <= 32
    }

    // 27 where the header is not served.
    #[tactic(auto, unfolding(crate::specs::Served::served_test, refusal::specs::Refusals::refuse))]
    pub fn served_test(self) -> Result<(), Refusal>
        ensures { result ≡ served_test self }
    {
        if self.is_served() {
            Ok(())
        } else {
            Err(Refusal::HeaderNotServed)
        }
    }
}

// The parameters of the header at pos.
#[tactic(auto, unfolding(crate::specs::Header::parameters_at))]
fn read_parameters(file: &[u8], pos: usize) -> Parameters
    requires { pos + 12 ≤ length file.now }
    ensures { result ≡ parameters_at file.now pos }
{
    Parameters {
        client_id: file[pos + 5],
        element_size: file[pos + 6],
        max_nelmts_bits: file[pos + 7],
        idx_blk_elmts: file[pos + 8],
        min_dblk_nelmts: file[pos + 9],
        super_blk_min_nelmts: file[pos + 10],
        max_dblk_nelmts_bits: file[pos + 11],
    }
}
