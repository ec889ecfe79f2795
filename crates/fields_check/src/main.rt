#![tactic(auto)]
// Prints what the readers, the stores and the conversions answer at their limits: every width, one byte short,
// positions near 2^64, all bits set at each width and one less.
use check_lines::print_refusal;
use fields::address::{Address, is_undefined_addr};
use refusal::Refusal;
use std::io;

fn print_field(rt: &impl Print, field: Result<u64, Refusal>) -> io::Result<()> {
    match field {
        Ok(n) => print!(rt; " {n}"),
        Err(r) => print_refusal(rt, r),
    }
}

fn print_optional(rt: &impl Print, field: Result<Option<u64>, Refusal>) -> io::Result<()> {
    match field {
        Ok(None) => print!(rt; " undefined"),
        Ok(Some(address)) => print!(rt; " {address}"),
        Err(r) => print_refusal(rt, r),
    }
}

// All answers for a field of s: the length of s, its position and width, then offset, optional offset, length and size.
fn print_readers(rt: &impl Print, s: &[u8], pos: u64, width: u64) -> io::Result<()> {
    print!(rt; "read {} {pos} {width}:", s.len())?;
    print_field(rt, fields::bytes::read_offset(s, pos, width))?;
    print!(rt; ",")?;
    print_optional(rt, fields::bytes::read_optional_offset(s, pos, width))?;
    print!(rt; ",")?;
    print_field(rt, fields::bytes::read_length(s, pos, width))?;
    print!(rt; ",")?;
    print_field(rt, fields::bytes::read_variable_length(s, pos, width))?;
    println!(rt)
}

// Whether `needed` bytes from pos on lie in s.
fn print_ensured(rt: &impl Print, s: &[u8], pos: u64, needed: u64) -> io::Result<()> {
    print!(rt; "ensure {} {pos} {needed}:", s.len())?;
    match fields::bytes::ensure_len(s, pos, needed) {
        Ok(()) => print!(rt; " passed")?,
        Err(r) => print_refusal(rt, r)?,
    }
    println!(rt)
}

// Widths 0 to 9 at a position.
fn print_widths(rt: &impl Print, s: &[u8], pos: u64) -> io::Result<()> {
    for width in 0..10 {
        print_readers(rt, s, pos, width)?;
    }
    Ok(())
}

// Widths 0 to 9 at a position, in a slice that ends with the field, and in one that ends a byte before.
fn print_ends(rt: &impl Print, s: &[u8], pos: usize) -> io::Result<()> {
    for end in pos..s.len() {
        let width = (end - pos) as u64;
        print_readers(rt, &s[..end], pos as u64, width)?;
        print_readers(rt, &s[..end], pos as u64, width + 1)?;
    }
    Ok(())
}

// Wide widths, among them those that would be 2, 4 or 8 if they were cut to 8, 16 or 32 bits.
fn print_wide(rt: &impl Print, s: &[u8], pos: u64) -> io::Result<()> {
    print_readers(rt, s, pos, 16)?;
    print_readers(rt, s, pos, 255)?;
    print_readers(rt, s, pos, 258)?;
    print_readers(rt, s, pos, 260)?;
    print_readers(rt, s, pos, 264)?;
    print_readers(rt, s, pos, 0x1_0008)?;
    print_readers(rt, s, pos, 0x1_0000_0008)?;
    print_readers(rt, s, pos, 0xFFFF_FFFF_FFFF_FFFF)
}

// Whether an address is undefined at widths 0 to 9.
fn print_undefined(rt: &impl Print, value: u64) -> io::Result<()> {
    print!(rt; "undefined {value}:")?;
    for width in 0..10 {
        let undefined = is_undefined_addr(Address { value }, width);
        print!(rt; " {}", u8::from(undefined))?;
    }
    println!(rt)
}

// A buffer with a number stored in it at widths 0 to 9, and the number that is read back.
fn print_stored(rt: &impl Print, value: u64) -> io::Result<()> {
    for width in 0..10 {
        print!(rt; "store {value} {width}: ")?;
        let mut s = [0xAAu8; 12];
        fields::bytes::put_le(&mut s, 2, width, value);
        print_bytes(rt, &s)?;
        print_field(rt, fields::bytes::read_variable_length(&s, 2, width as u64))?;
        println!(rt)?;
    }
    Ok(())
}

fn print_bytes(rt: &impl Print, s: &[u8]) -> io::Result<()> {
    for b in s {
        print!(rt; "{b:02x}")?;
    }
    Ok(())
}

fn print_exact(rt: &impl Print, exact: Option<u64>) -> io::Result<()> {
    match exact {
        Some(n) => print!(rt; " {n}"),
        None => print!(rt; " overflows"),
    }
}

// Sum and product of two numbers, each checked and saturating.
fn print_sums(rt: &impl Print, a: u64, b: u64) -> io::Result<()> {
    print!(rt; "sum {a} {b}:")?;
    print_exact(rt, a.checked_add(b))?;
    print!(rt; " {}", a.saturating_add(b))?;
    print_exact(rt, a.checked_mul(b))?;
    println!(rt; " {}", a.saturating_mul(b))
}

fn print_narrowed(rt: &impl Print, value: u64) -> io::Result<()> {
    print!(rt; "narrow {value}:")?;
    match fields::convert::u32_from(value) {
        Ok(n) => print!(rt; " {n}")?,
        Err(r) => print_refusal(rt, r)?,
    }
    println!(rt)
}

fn print_reads(rt: &impl Print) -> io::Result<()> {
    let rising = b"\x01\x02\x03\x04\x05\x06\x07\x08\x09\x0a\x0b\x0c";
    print_widths(rt, rising, 0)?;
    print_widths(rt, rising, 3)?;
    print_widths(rt, rising, 4)?;
    print_widths(rt, rising, 12)?;
    print_widths(rt, rising, 13)?;
    print_ends(rt, rising, 0)?;
    print_ends(rt, rising, 2)?;
    print_widths(rt, b"", 0)?;
    print_widths(rt, rising, 0x7FFF_FFFF_FFFF_FFFF)?;
    print_widths(rt, rising, 0xFFFF_FFFF_FFFF_FFF7)?;
    print_widths(rt, rising, 0xFFFF_FFFF_FFFF_FFF8)?;
    print_widths(rt, rising, 0xFFFF_FFFF_FFFF_FFFE)?;
    print_widths(rt, rising, 0xFFFF_FFFF_FFFF_FFFF)?;
    print_wide(rt, rising, 0)?;
    print_wide(rt, rising, 0xFFFF_FFFF_FFFF_FFFF)?;
    print_widths(rt, b"\xff\xff\xff\xff\xff\xff\xff\xff\xff\xff", 0)?;
    print_widths(rt, b"\xfe\xff\xff\xff\xff\xff\xff\xff\xff\xff", 0)?;
    print_widths(rt, b"\xff\xff\x00\x00\x00\x00\x00\x00\xff\xff", 0)?;
    print_widths(rt, b"\xff\xff\xff\xff\x00\x00\x00\x00\xff\xff", 0)?;
    print_widths(rt, b"\xff\xff\xff\xff\xff\xff\xff\xfe\xff\xff", 0)
}

fn print_ensures(rt: &impl Print) -> io::Result<()> {
    print_ensured(rt, b"", 0, 0)?;
    print_ensured(rt, b"", 0, 1)?;
    print_ensured(rt, b"", 1, 0)?;
    print_ensured(rt, b"abc", 0, 3)?;
    print_ensured(rt, b"abc", 0, 4)?;
    print_ensured(rt, b"abc", 3, 0)?;
    print_ensured(rt, b"abc", 4, 0)?;
    print_ensured(rt, b"abc", 2, 1)?;
    print_ensured(rt, b"abc", 2, 2)?;
    print_ensured(rt, b"abc", 0xFFFF_FFFF_FFFF_FFFE, 1)?;
    print_ensured(rt, b"abc", 0xFFFF_FFFF_FFFF_FFFF, 1)?;
    print_ensured(rt, b"abc", 1, 0xFFFF_FFFF_FFFF_FFFF)?;
    print_ensured(rt, b"abc", 3, 0xFFFF_FFFF_FFFF_FFFF)?;
    print_ensured(rt, b"abc", 0xFFFF_FFFF_FFFF_FFFF, 0xFFFF_FFFF_FFFF_FFFF)
}

fn print_conversions(rt: &impl Print) -> io::Result<()> {
    print_sums(rt, 0, 0)?;
    print_sums(rt, 0xFFFF_FFFF_FFFF_FFFF, 0)?;
    print_sums(rt, 0, 0xFFFF_FFFF_FFFF_FFFF)?;
    print_sums(rt, 0xFFFF_FFFF_FFFF_FFFF, 1)?;
    print_sums(rt, 1, 0xFFFF_FFFF_FFFF_FFFF)?;
    print_sums(rt, 0xFFFF_FFFF_FFFF_FFFE, 1)?;
    print_sums(rt, 0x8000_0000_0000_0000, 0x7FFF_FFFF_FFFF_FFFF)?;
    print_sums(rt, 0x8000_0000_0000_0000, 2)?;
    print_sums(rt, 0xFFFF_FFFF, 0x1_0000_0001)?;
    print_sums(rt, 0x1_0000_0000, 0x1_0000_0000)?;
    print_sums(rt, 0xFFFF_FFFF_FFFF_FFFF, 0xFFFF_FFFF_FFFF_FFFF)?;
    print_sums(rt, 0x5555_5555_5555_5555, 3)?;
    print_sums(rt, 3, 0x5555_5555_5555_5556)?;
    print_narrowed(rt, 0)?;
    print_narrowed(rt, 0xFFFF_FFFE)?;
    print_narrowed(rt, 0xFFFF_FFFF)?;
    print_narrowed(rt, 0x1_0000_0000)?;
    print_narrowed(rt, 0x1_0000_0001)?;
    print_narrowed(rt, 0xFFFF_FFFF_FFFF_FFFF)
}

fn main(rt: HostRuntime) -> io::Result<()> {
    print_reads(&rt)?;
    print_ensures(&rt)?;
    print_undefined(&rt, 0)?;
    print_undefined(&rt, 0xFE)?;
    print_undefined(&rt, 0xFF)?;
    print_undefined(&rt, Address::UNDEFINED_2.value - 1)?;
    print_undefined(&rt, Address::UNDEFINED_2.value)?;
    print_undefined(&rt, Address::UNDEFINED_2.value + 1)?;
    print_undefined(&rt, Address::UNDEFINED_4.value - 1)?;
    print_undefined(&rt, Address::UNDEFINED_4.value)?;
    print_undefined(&rt, Address::UNDEFINED_4.value + 1)?;
    print_undefined(&rt, Address::UNDEFINED_8.value - 1)?;
    print_undefined(&rt, Address::UNDEFINED_8.value)?;
    print_stored(&rt, 0)?;
    print_stored(&rt, 0x0807_0605_0403_0201)?;
    print_stored(&rt, 0xFFFF_FFFF_FFFF_FFFF)?;
    print_stored(&rt, 0xFFFF_FFFF_FFFF_FFFE)?;
    print_conversions(&rt)
}
