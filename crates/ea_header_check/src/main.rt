#![tactic(auto)]
// Prints what parse answers: headers of each width, and each refusal with what goes before it; then which least block
// elements are served, and the bytes of a header.
ghost use Rattle.std.specs.Prelude.{◌<◌};

use check_lines::begin_with_refusal;
use ea_header::{ExtensibleArrayHeader, Parameters};
use std::io;
use structures::header::IndexHeader;

fn print_parameters(rt: &impl Print, p: Parameters) -> io::Result<()> {
    print!(rt;
        "header {} {} {} {} {} {} {}",
        p.client_id,
        p.element_size,
        p.max_nelmts_bits,
        p.idx_blk_elmts,
        p.min_dblk_nelmts,
        p.super_blk_min_nelmts,
        p.max_dblk_nelmts_bits
    )
}

fn print_header(rt: &impl Print, h: ExtensibleArrayHeader) -> io::Result<()> {
    print_parameters(rt, h.parameters)?;
    print!(rt; " {} {}", h.num_elements, h.index_block_address)
}

fn print_served(rt: &impl Print, p: Parameters) -> io::Result<()> {
    match p.served_test() {
        Ok(()) => print!(rt; " served"),
        Err(r) => print!(rt; " refused {}", r.number()),
    }
}

fn print_parsed(
    rt: &impl Print,
    file: &[u8],
    address: u64,
    offset_size: u64,
    length_size: u64,
) -> io::Result<()> {
    match ExtensibleArrayHeader::parse(file, address, offset_size, length_size) {
        Ok(h) => {
            print_header(rt, h)?;
            print_served(rt, h.parameters)?;
        }
        Err(r) => begin_with_refusal(rt, r)?,
    }
    println!(rt)
}

fn is_served(least: u8) -> bool {
    let p = Parameters {
        client_id: 0,
        element_size: 8,
        max_nelmts_bits: 62,
        idx_blk_elmts: 0,
        min_dblk_nelmts: least,
        super_blk_min_nelmts: 32,
        max_dblk_nelmts_bits: 32,
    };
    p.is_served()
}

fn print_served_least(rt: &impl Print) -> io::Result<()> {
    print!(rt; "served least")?;
    for least in 0..=u8::MAX {
        if is_served(least) {
            print!(rt; " {least}")?;
        }
    }
    println!(rt)
}

fn print_size(rt: &impl Print, offset_size: u64, length_size: u64) -> io::Result<()> {
    println!(rt;
        "size {}",
        ExtensibleArrayHeader::serialized_size(offset_size, length_size)
    )
}

// A file parsed at address 0 with sizes of 8 bytes.
fn print_eight(rt: &impl Print, file: &[u8]) -> io::Result<()> {
    print_parsed(rt, file, 0, 8, 8)
}

// A whole header, with sizes of 8 bytes.
fn whole() -> [u8; 72] {
    *b"EAHD\x00\x00\x08\x20\x02\x10\x04\x0a\x01\x00\x00\x00\x00\x00\x00\x00\x02\x00\x00\x00\x00\x00\x00\x00\x03\
      \x00\x00\x00\x00\x00\x00\x00\x04\x00\x00\x00\x00\x00\x00\x00\x05\x00\x00\x00\x00\x00\x00\x00\x06\x00\x00\
      \x00\x00\x00\x00\x00H\x00\x00\x00\x00\x00\x00\x00\x0d\x91\xb0\x24"
}

// The whole header at an address, parsed with these sizes.
fn print_whole(
    rt: &impl Print,
    address: u64,
    offset_size: u64,
    length_size: u64,
) -> io::Result<()> {
    let file = whole();
    print_parsed(rt, &file, address, offset_size, length_size)
}

// The whole header without its last byte.
fn print_short(rt: &impl Print, offset_size: u64) -> io::Result<()> {
    let file = whole();
    print_parsed(rt, &file[0..71], 0, offset_size, 8)
}

// The whole header with another byte at a place and this checksum, parsed with these sizes.
fn print_changed(
    rt: &impl Print,
    place: usize,
    byte: u8,
    sum: &[u8; 4],
    offset_size: u64,
    length_size: u64,
) -> io::Result<()>
    requires { place < 72 }
{
    let mut file = whole();
    file[place] = byte;
    file[68] = sum[0];
    file[69] = sum[1];
    file[70] = sum[2];
    file[71] = sum[3];
    print_parsed(rt, &file, 0, offset_size, length_size)
}

// Headers of each width.
fn print_headers(rt: &impl Print) -> io::Result<()> {
    print_whole(rt, 0, 8, 8)?;
    print_parsed(
        rt,
        b"\x01\x02\x03EAHD\x00\x00\x08\x20\x02\x10\x04\x0a\x01\x00\x00\x00\x00\x00\x00\x00\x02\x00\x00\x00\x00\
          \x00\x00\x00\x03\x00\x00\x00\x00\x00\x00\x00\x04\x00\x00\x00\x00\x00\x00\x00\x05\x00\x00\x00\x00\x00\
          \x00\x00\x06\x00\x00\x00\x00\x00\x00\x00H\x00\x00\x00\x00\x00\x00\x00\x0d\x91\xb0\x24\x04",
        3,
        8,
        8,
    )?;
    print_eight(
        rt,
        b"EAHD\x00\x01\x0e\x3e\xff\x80\x20\x20\x0a\x00\x00\x00\x00\x00\x00\x00\x14\x00\x00\x00\x00\x00\x00\x00\
          \x01\x00\x00\x00\x00\x00\x00\x80\xff\xff\xff\xff\xff\xff\xff\xff\x07\x00\x00\x00\x00\x01\x00\x00\x00\
          \x00\x00\x00\x00\x02\x00\x00\xff\xff\xff\xff\xff\xff\xff\xff\x1ca\x84\x7b",
    )?;
    print_parsed(
        rt,
        b"EAHD\x00\x00\x08\x20\x02\x10\x04\x0a\x09\x00\x00\x00\x08\x00\x00\x00\x07\x00\x00\x00\x06\x00\x00\x00\
          \xfe\xff\xff\xff\x04\x00\x00\x00\xff\xff\x00\x00\x21\xb6\xb2\xb8",
        0,
        4,
        4,
    )?;
    print_parsed(
        rt,
        b"EAHD\x00\x00\x08\x20\x02\x10\x04\x0a\x09\x00\x08\x00\x07\x00\x06\x00\xfe\xff\x04\x00\xff\xffFp\x7b\xe0",
        0,
        2,
        2,
    )?;
    print_parsed(
        rt,
        b"EAHD\x00\x00\x08\x20\x02\x10\x04\x0a\x0a\x00\x00\x00\x00\x00\x00\x00\x14\x00\x00\x00\x00\x00\x00\x00\
          \x01\x00\x00\x00\x00\x00\x00\x80\xff\xff\xff\xff\xff\xff\xff\xff\x07\x00\x00\x00\x00\x01\x00\x00\x00\
          \x00\x00\x00\x00\x02\x00\x004\x12\x89\x5e\xeb\xd1",
        0,
        2,
        8,
    )?;
    print_parsed(
        rt,
        b"EAHD\x00\x00\x08\x20\x02\x10\x04\x0a\x01\x00\x02\x00\x03\x00\x04\x00\xcd\xab\xff\xff\x00\x00\x00\x00\
          \x00\x00\x00\x808\xfeW\x9e",
        0,
        8,
        2,
    )?;
    print_parsed(
        rt,
        b"EAHD\x00\xff\x00\x00\x00\x01\x00\x00\x00\x00\x00\x00\x00\x00\x00\x00\x00\x00\x00\x00\x00\x00\x00\x00\
          \x00\x00\x00\x00\x00\x00\x00\x00\x00\x00\x00\x00\x00\x00\x00\x00\x00\x00\x00\x00\x00\x00\x00\x00\x00\
          \x00\x00\x00\x00\x00\x00\x00\x00\x00\x00\x00\xcdO\xd0\x3b",
        0,
        4,
        8,
    )
}

// 20, with figures past 2^64 - 1; and a sum that just fits.
fn print_past_end(rt: &impl Print) -> io::Result<()> {
    print_short(rt, 8)?;
    print_whole(rt, 1, 8, 8)?;
    print_eight(rt, b"")?;
    print_whole(rt, 0xffffffffffffffff, 8, 8)?;
    print_whole(rt, 0, 0xffffffffffffffff, 8)?;
    print_whole(rt, 0, 8, 0xffffffffffffffff)?;
    print_whole(
        rt,
        0x8000000000000000,
        0x8000000000000000,
        0x1000000000000000,
    )?;
    print_whole(rt, 0, 0, 0x4000000000000000)?;
    print_whole(rt, 0, 9, 8)?;
    print_short(rt, 3)
}

// 21 and 22, and 22 before 2.
fn print_forms(rt: &impl Print) -> io::Result<()> {
    print_eight(
        rt,
        b"EAIB\x00\x00\x08\x20\x02\x10\x04\x0a\x01\x00\x00\x00\x00\x00\x00\x00\x02\x00\x00\x00\x00\x00\x00\x00\
          \x03\x00\x00\x00\x00\x00\x00\x00\x04\x00\x00\x00\x00\x00\x00\x00\x05\x00\x00\x00\x00\x00\x00\x00\x06\
          \x00\x00\x00\x00\x00\x00\x00H\x00\x00\x00\x00\x00\x00\x00\xd5\x5f\x5df",
    )?;
    print_changed(rt, 4, 1, b"\xc1\x02\x57\xdf", 8, 8)?;
    print_changed(rt, 4, 255, b"\xdb\x38\x25\x51", 8, 8)?;
    print_eight(
        rt,
        b"EAHd\x03\x00\x08\x20\x02\x10\x04\x0a\x01\x00\x00\x00\x00\x00\x00\x00\x02\x00\x00\x00\x00\x00\x00\x00\
          \x03\x00\x00\x00\x00\x00\x00\x00\x04\x00\x00\x00\x00\x00\x00\x00\x05\x00\x00\x00\x00\x00\x00\x00\x06\
          \x00\x00\x00\x00\x00\x00\x00H\x00\x00\x00\x00\x00\x00\x00Sn\x05o",
    )?;
    print_changed(rt, 4, 7, b"\x37\xb2\x8c\x3a", 7, 7)
}

// 2 before 1, 1, and 2 before 26.
fn print_sizes(rt: &impl Print) -> io::Result<()> {
    print_whole(rt, 0, 3, 3)?;
    print_whole(rt, 0, 8, 3)?;
    print_whole(rt, 0, 3, 8)?;
    print_whole(rt, 0, 0, 0)?;
    print_whole(rt, 0, 0, 8)?;
    print_whole(rt, 0, 7, 8)?;
    print_whole(rt, 0, 16, 6)?;
    print_whole(rt, 0, 1, 4)?;
    print_changed(rt, 4, 0, b"\x0c\x91\xb0\x24", 8, 7)
}

// 26.
fn print_sums(rt: &impl Print) -> io::Result<()> {
    print_changed(rt, 4, 0, b"\x0c\x91\xb0\x24", 8, 8)?;
    print_changed(rt, 4, 0, b"\x0d\x91\xb0\xa4", 8, 8)?;
    print_whole(rt, 0, 4, 8)?;
    print_whole(rt, 0, 8, 4)?;
    print_changed(rt, 4, 0, b"\x00\x00\x00\x00", 8, 8)
}

// 27.
fn print_not_served(rt: &impl Print) -> io::Result<()> {
    print_changed(rt, 9, 0, b"\x33\xcf\x5c\x53", 8, 8)?;
    print_changed(rt, 9, 24, b"\x1d\x41\xd9\x16", 8, 8)?;
    print_changed(rt, 9, 255, b"\xec\x64\xa3\x8c", 8, 8)?;
    print_changed(rt, 9, 129, b"\x5f\x30\xad\x6c", 8, 8)?;
    print_changed(rt, 7, 63, b"\x69\x37\x4d\x4b", 8, 8)?;
    print_changed(rt, 10, 33, b"\xc1\x21\x92\x0b", 8, 8)?;
    print_changed(rt, 11, 33, b"\x83\xc4\xb6\xc1", 8, 8)
}

fn main(rt: HostRuntime) -> io::Result<()> {
    print_headers(&rt)?;
    print_past_end(&rt)?;
    print_forms(&rt)?;
    print_sizes(&rt)?;
    print_sums(&rt)?;
    print_not_served(&rt)?;
    print_served_least(&rt)?;
    print_size(&rt, 8, 8)?;
    print_size(&rt, 2, 2)?;
    print_size(&rt, 4, 8)?;
    print_size(&rt, 0xffff_ffff_ffff_ffff, 0)?;
    print_size(&rt, 0, 0xffff_ffff_ffff_ffff)?;
    print_size(&rt, 0x8000_0000_0000_0000, 0x1000_0000_0000_0000)
}
