// The header of an index: it is tested, and read.
ghost use Rattle.std.specs.Prelude.{◌≡◌, true, ◌+◌, ◌≤◌, List, ℕ, length, Ok};
ghost use Rattle.refusal.specs.Outcome.{◌yields◌};
ghost use Rattle.refusal.specs.Refusals.{figure};
ghost use Rattle.refusal.specs.declared.Refusal.{Refusal as RefusalValue};
ghost use Rattle.fields.specs.Fields.{is_width};
ghost use Rattle.checksum.specs.Lookup3.{lookup3};
ghost use Rattle.structures.specs.Header.{form_test, sizes_test, signed_header_test};

use crate::{Kind, test_signature};
use checksum::verify_trailing;
use fields::bytes::{ensure_len, ensure_length_size, ensure_offset_size};
use refusal::Refusal;

// The header of a kind of index.
pub trait IndexHeader {
    const SIGNATURE: u32;

    // The refusal of another signature.
    const WRONG_SIGNATURE: Refusal;

    ghost SIGNATURE: { ℕ };

    ghost WRONG_SIGNATURE: { RefusalValue };

    // With these sizes of offsets and lengths: how many bytes a header has, and what it says at a position of a file.
    ghost bytes: { ℕ → ℕ → ℕ };

    ghost at: { List ℕ → ℕ → ℕ → ℕ → Self };

    // The bytes of a header; past 2^64 - 1 it is 2^64 - 1.
    fn serialized_size(offset_size: u64, length_size: u64) -> u64
        ensures { result ≡ figure (bytes offset_size length_size) };

    // The header at pos.
    fn read_at(file: &[u8], pos: usize, offset_size: usize, length_size: usize) -> Self
        requires { (pos + bytes offset_size length_size ≤ length file.now) × (is_width offset_size ≡ true)
            × (is_width length_size ≡ true) }
        ensures { result ≡ at file.now pos offset_size length_size };

    // A law: it has a signature and a version.
    ghost has_form: { (o l : ℕ) → 5 ≤ bytes o l };
}

// Reads the header at an address of a file. In this order it is refused: 20 where it does not lie in the file with the
// sizes as given, `WRONG_SIGNATURE` and 22 for its signature and version, 2 and 1 for the sizes, 26 for its checksum.
pub fn parse<H: IndexHeader>(
    file: &[u8],
    address: u64,
    offset_size: u64,
    length_size: u64,
) -> Result<H, Refusal>
    ensures { result
        ≡ (signed_header_test H.WRONG_SIGNATURE H.SIGNATURE lookup3 file.now address
        (H.bytes offset_size length_size) offset_size length_size
        yields Ok (H.at file.now address offset_size length_size)) }
{
    let size = H::serialized_size(offset_size, length_size);
    let wrong = H::WRONG_SIGNATURE;
    test_header(
        file,
        wrong,
        H::SIGNATURE,
        address,
        size,
        offset_size,
        length_size,
    )?;
    Ok(H::read_at(
        file,
        address as usize,
        offset_size as usize,
        length_size as usize,
    ))
}

// Tests a header of `size` bytes at an address of a file, in that order.
pub fn test_header(
    file: &[u8],
    wrong: Refusal,
    signature: u32,
    address: u64,
    size: u64,
    offset_size: u64,
    length_size: u64,
) -> Result<(), Refusal>
    requires { 5 ≤ size }
    ensures { result
        ≡ signed_header_test wrong signature lookup3 file.now address size offset_size length_size }
{
    ensure_len(file, address, size)?;
    let pos = address as usize;
    test_form(file, wrong, signature, pos)?;
    test_sizes(offset_size, length_size)?;
    let end = pos + size as usize;
    verify_trailing(&file[pos..end])
}

// Tests signature and version of the header at pos.
fn test_form(file: &[u8], wrong: Refusal, signature: u32, pos: usize) -> Result<(), Refusal>
    requires { pos + 5 ≤ length file.now }
    ensures { result ≡ form_test wrong signature file.now pos }
{
    let kind = Kind::Signed { wrong, signature };
    test_signature(file, kind, pos)?;
    let version = file[pos + 4];
    if version == 0 {
        Ok(())
    } else {
        Err(Refusal::HeaderVersion(version as u64))
    }
}

// Tests the sizes of lengths and offsets.
fn test_sizes(offset_size: u64, length_size: u64) -> Result<(), Refusal>
    ensures { result ≡ sizes_test offset_size length_size }
{
    ensure_length_size(length_size)?;
    ensure_offset_size(offset_size)
}
