#![tactic(auto)]
// The structures that indexes are made of: one tested.
ghost use Rattle.std.specs.Prelude.{◌≡◌};
ghost use Rattle.refusal.specs.Refusals.{◌then◌};
ghost use Rattle.fields.specs.Fields.{in_file};
ghost use Rattle.checksum.specs.Lookup3.{lookup3};
ghost use Rattle.structures.specs.Structures.{signature_test, structure_test};

use checksum::{TwoChecked, verify_trailing, verify_trailing_two};
use fields::bytes::{ensure_len, read_u32_le_padded};
use refusal::Refusal;

pub mod enter;
pub mod header;
pub mod page_bits;

// What the first bytes of a structure must be: a signature, or it is refused by `wrong`; or anything, as a page's.
#[derive(Clone, Copy)]
pub enum Kind {
    Signed { wrong: Refusal, signature: u32 },
    Page,
}

// Tests a structure of `len` bytes at pos: 20, its signature's refusal, 26.
pub fn test_structure(file: &[u8], kind: Kind, pos: u64, len: u64) -> Result<(), Refusal>
    ensures { result ≡ structure_test lookup3 kind file.now pos len }
{
    test_before_checksum(file, kind, pos, len)?;
    let start = pos as usize;
    let end = start + len as usize;
    verify_trailing(&file[start..end])
}

// Tests two structures of `len` bytes, at pos and at `other`; where both come to their checksums, these side by side.
pub fn test_two_structures(file: &[u8], kind: Kind, pos: u64, other: u64, len: u64) -> TwoChecked
    ensures { (result.first ≡ structure_test lookup3 kind file.now pos len)
        × (result.second ≡ structure_test lookup3 kind file.now other len) }
{
    let before = test_before_checksum(file, kind, pos, len);
    let other_before = test_before_checksum(file, kind, other, len);
    if let (Ok(()), Ok(())) = (before, other_before) {
        let start = pos as usize;
        let end = start + len as usize;
        let other_start = other as usize;
        let other_end = other_start + len as usize;
        return verify_trailing_two(&file[start..end], &file[other_start..other_end]);
    }
    TwoChecked {
        first: test_structure(file, kind, pos, len),
        second: test_structure(file, kind, other, len),
    }
}

// The tests of a structure that come before its checksum's: 20, its signature's refusal.
pub fn test_before_checksum(file: &[u8], kind: Kind, pos: u64, len: u64) -> Result<(), Refusal>
    ensures { result ≡ (in_file file.now pos len then signature_test kind file.now pos) }
{
    ensure_len(file, pos, len)?;
    test_signature(file, kind, pos as usize)
}

// Tests the signature of the structure at pos.
fn test_signature(file: &[u8], kind: Kind, pos: usize) -> Result<(), Refusal>
    ensures { result ≡ signature_test kind file.now pos }
{
    match kind {
        Kind::Signed { wrong, signature } if read_u32_le_padded(file, pos) != signature => {
            Err(wrong)
        }
        _ => Ok(()),
    }
}
