// Little-endian fields of a byte slice.
ghost use Rattle.std.specs.Prelude.{◌≡◌, true, ◌+◌, ◌*◌, ◌^◌, ◌<◌, ◌≤◌, length};
ghost use Rattle.std.proofs.lemmas.List.Edits.{sets};
ghost use Rattle.fields.specs.LittleEndian.{le_at, le_bytes};
ghost use Rattle.fields.specs.Fields.{is_width, width_test, offset_size_test, length_size_test, in_file, address_at};
ghost use Rattle.fields.specs.Values.{offset_field, optional_offset_field, length_field, size_field};

use crate::address::{Address, is_undefined_addr};
use refusal::Refusal;

// Whether an offset or length can be `width` bytes wide.
pub fn is_width(width: u64) -> bool
    ensures { result ≡ is_width width }
{
    match width {
        2 | 4 | 8 => true,
        _ => false,
    }
}

// Tests that `needed` bytes from pos on lie in s: 20 where they don't.
pub fn ensure_len(s: &[u8], pos: u64, needed: u64) -> Result<(), Refusal>
    ensures { result ≡ in_file s.now pos needed }
{
    let len = s.len() as u64;
    let end = pos.saturating_add(needed);
    if end <= len {
        Ok(())
    } else {
        Err(Refusal::PastEnd(end, len))
    }
}

// Tests the size of offsets: 1 where no offset is so wide.
pub fn ensure_offset_size(size: u64) -> Result<(), Refusal>
    ensures { result ≡ offset_size_test size }
{
    ensure_width(size, Refusal::OffsetSize(size))
}

// Tests the size of lengths: 2 where no length is so wide.
pub fn ensure_length_size(size: u64) -> Result<(), Refusal>
    ensures { result ≡ length_size_test size }
{
    ensure_width(size, Refusal::LengthSize(size))
}

// What both tests share: `wrong` where nothing is so wide.
pub fn ensure_width(width: u64, wrong: Refusal) -> Result<(), Refusal>
    ensures { result ≡ width_test wrong width }
{
    if is_width(width) { Ok(()) } else { Err(wrong) }
}

// The address in the `width` bytes of s from pos on: 1 where no offset is so wide, 20 past the end.
pub fn read_offset(s: &[u8], pos: u64, width: u64) -> Result<u64, Refusal>
    ensures { result ≡ offset_field s.now pos width }
{
    ensure_offset_size(width)?;
    ensure_len(s, pos, width)?;
    let address = read_address(s, pos as usize, width as usize);
    Ok(address.value)
}

// The same, where the address may be undefined.
pub fn read_optional_offset(s: &[u8], pos: u64, width: u64) -> Result<Option<u64>, Refusal>
    ensures { result ≡ optional_offset_field s.now pos width }
{
    let value = read_offset(s, pos, width)?;
    if is_undefined_addr(Address { value }, width) {
        Ok(None)
    } else {
        Ok(Some(value))
    }
}

// The length in the `width` bytes of s from pos on: 2 where no length is so wide, 20 past the end.
pub fn read_length(s: &[u8], pos: u64, width: u64) -> Result<u64, Refusal>
    ensures { result ≡ length_field s.now pos width }
{
    ensure_length_size(width)?;
    ensure_len(s, pos, width)?;
    Ok(read_le(s, pos as usize, width as usize))
}

// The size in the `width` bytes of s from pos on: 29 over 8 bytes, 20 past the end.
pub fn read_variable_length(s: &[u8], pos: u64, width: u64) -> Result<u64, Refusal>
    ensures { result ≡ size_field s.now pos width }
{
    if 8 < width {
        return Err(Refusal::SizeField);
    }
    ensure_len(s, pos, width)?;
    Ok(read_le(s, pos as usize, width as usize))
}

// The address that is stored in the `width` bytes of s from pos on. No other function reads one.
pub fn read_address(s: &[u8], pos: usize, width: usize) -> Address
    requires { (pos + width ≤ length s.now) × (is_width width ≡ true) }
    ensures { result.value ≡ address_at s.now pos width }
{
    Address {
        value: read_le(s, pos, width),
    }
}

// The number in the `width` bytes of s from pos on.
pub fn read_le(s: &[u8], pos: usize, width: usize) -> u64
    requires { (pos + width ≤ length s.now) × (width ≤ 8) }
    ensures { (result ≡ le_at s.now pos width) × (result < 2 ^ (8 * width)) }
{
    match width {
        2 => u64::from(read_u16_le(s, pos)),
        4 => u64::from(read_u32_le(s, pos)),
        8 => read_u64_le(s, pos),
        _ => read_le_bytes(s, pos, width),
    }
}

// The same, byte by byte.
#[cold]
#[inline(never)]
fn read_le_bytes(s: &[u8], pos: usize, width: usize) -> u64
    requires { (pos + width ≤ length s.now) × (width ≤ 8) }
    ensures { (result ≡ le_at s.now pos width) × (result < 2 ^ (8 * width)) }
{
    let mut v = 0u64;
    // v is the number in the bytes behind those that are left.
    for byte in s[pos..pos + width].iter().rev() {
        v = v * 256 + u64::from(*byte);
    }
    v
}

// The number in the 2 bytes of s from pos on. (In this and the next two the bytes are listed: from an array that is
// made of a part of s, they would be tested once more.)
fn read_u16_le(s: &[u8], pos: usize) -> u16
    requires { pos + 2 ≤ length s.now }
    ensures { result ≡ le_at s.now pos 2 }
{
    u16::from_le_bytes([s[pos], s[pos + 1]])
}

pub fn read_u32_le(s: &[u8], pos: usize) -> u32
    requires { pos + 4 ≤ length s.now }
    ensures { result ≡ le_at s.now pos 4 }
{
    u32::from_le_bytes([s[pos], s[pos + 1], s[pos + 2], s[pos + 3]])
}

pub fn read_u64_le(s: &[u8], pos: usize) -> u64
    requires { pos + 8 ≤ length s.now }
    ensures { result ≡ le_at s.now pos 8 }
{
    u64::from_le_bytes([
        s[pos],
        s[pos + 1],
        s[pos + 2],
        s[pos + 3],
        s[pos + 4],
        s[pos + 5],
        s[pos + 6],
        s[pos + 7],
    ])
}

// The number in the 4 bytes of s from pos on, where s may end before: a byte that is not there counts as 0.
pub fn read_u32_le_padded(s: &[u8], pos: usize) -> u32
    ensures { result ≡ le_at s.now pos 4 }
{
    if s.len() <= pos {
        return 0;
    }
    let left = s.len() - pos;
    if 4 <= left {
        read_u32_le(s, pos)
    } else {
        read_le_bytes(s, pos, left) as u32
    }
}

// Stores the lowest `width` bytes of a number in s from pos on.
pub fn put_le(s: &mut [u8], pos: usize, width: usize, value: u64)
    requires { pos + width ≤ length s.old }
    ensures { s.new ≡ sets s.old pos (le_bytes width value) }
{
    let mut rest = value;
    // The lowest bytes are stored in front of those that are left, and `rest` is the number without them.
    for byte in s[pos..pos + width].iter_mut() {
        *byte = (rest % 256) as u8;
        rest /= 256;
    }
}
