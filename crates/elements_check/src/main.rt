#![tactic(auto)]
// Prints what elements hold: every element size at each width of addresses and at another one, defined and undefined;
// sizes of chunks at the limit of 32 bits; and elements that are refused for two reasons, for the order of the tests.
use check_lines::print_refusal;
use chunk_grid::{ChunkGrid, GridOrder};
use element_form::Form;
use elements::ElementReader;
use elements::read::read_element;
use index::Entry;
use refusal::Refusal;
use std::io;

fn print_found(rt: &impl Print, found: Result<Option<Entry>, Refusal>) -> io::Result<()> {
    match found {
        Ok(None) => print!(rt; " absent"),
        Ok(Some(e)) => print!(rt; " {} {} {}", e.address, e.size, e.mask),
        Err(r) => print_refusal(rt, r),
    }
}

// What the element at the beginning of a file holds for the chunk of a slot, in a dataset with elements of so many
// bytes; nothing where the file is shorter.
fn print_read(
    rt: &impl Print,
    file: &[u8],
    form: Form,
    slot: u64,
    element_bytes: u64,
    grid: Result<ChunkGrid, Refusal>,
) -> io::Result<()> {
    let grid = match grid {
        Ok(grid) => grid,
        Err(r) => return print_refusal(rt, r),
    };
    if let Err(r) = grid.test() {
        return print_refusal(rt, r);
    }
    let numbering = grid.numbering();
    let reader = ElementReader::new(form, 3, &numbering, element_bytes);
    if form.stride() <= file.len() as u64 {
        print_found(rt, read_element(file, 0, slot, &reader))?;
    }
    Ok(())
}

// The same behind a name, and what the form is.
fn print_element(
    rt: &impl Print,
    name: &str,
    file: &[u8],
    form: Form,
    slot: u64,
    element_bytes: u64,
    grid: Result<ChunkGrid, Refusal>,
) -> io::Result<()> {
    print!(rt;
        "{name} client {} size {} width {} slot {slot}:",
        form.client_id, form.element_size, form.offset_size
    )?;
    print_read(rt, file, form, slot, element_bytes, grid)?;
    println!(rt)
}

fn filtered(element_size: u8, offset_size: u64) -> Form {
    Form {
        client_id: 1,
        element_size,
        offset_size,
    }
}

// Chunks of 10, 25 elements present, unlimited: slots 0 to 2 are inside.
fn line() -> Result<ChunkGrid, Refusal> {
    ChunkGrid::new(
        1,
        &[10u64],
        &[25u64],
        Some(&[u64::MAX]),
        GridOrder::UnlimitedFirst,
    )
}

// Chunks of 2^63 by 1, unlimited by this count: slot 2 is at 2^64.
fn tall(count: u64) -> Result<ChunkGrid, Refusal> {
    ChunkGrid::new(
        2,
        &[0x8000_0000_0000_0000u64, 1],
        &[1u64, 1],
        Some(&[u64::MAX, count]),
        GridOrder::UnlimitedFirst,
    )
}

// An element of slot 0 with every size from 0 to 25.
fn print_sizes(rt: &impl Print, name: &str, file: &[u8], offset_size: u64) -> io::Result<()> {
    for size in 0..26 {
        print_element(rt, name, file, filtered(size, offset_size), 0, 4, line())?;
    }
    Ok(())
}

// The widths of addresses, and 3.
fn print_widths(rt: &impl Print, name: &str, file: &[u8]) -> io::Result<()> {
    print_sizes(rt, name, file, 2)?;
    print_sizes(rt, name, file, 3)?;
    print_sizes(rt, name, file, 4)?;
    print_sizes(rt, name, file, 8)
}

// Filtered, with an address of 8 bytes and a size of 8 or 9.
fn print_wide(rt: &impl Print, name: &str, file: &[u8]) -> io::Result<()> {
    print_element(rt, name, file, filtered(20, 8), 0, 4, line())?;
    print_element(rt, name, file, filtered(21, 8), 0, 4, line())
}

// Undefined before 32 before 33, and dropped before 29.
fn print_order(rt: &impl Print, name: &str, file: &[u8]) -> io::Result<()> {
    print_element(rt, name, file, filtered(20, 8), 2, 4, tall(0))?;
    print_element(rt, name, file, filtered(20, 8), 2, 4, tall(1))?;
    print_element(rt, name, file, filtered(21, 8), 3, 4, line())
}

// Unfiltered, the size is the chunk's bytes.
fn print_unfiltered(
    rt: &impl Print,
    name: &str,
    file: &[u8],
    element_bytes: u64,
) -> io::Result<()> {
    let form = Form {
        client_id: 0,
        element_size: 0,
        offset_size: 8,
    };
    print_element(rt, name, file, form, 0, element_bytes, line())
}

fn main(rt: HostRuntime) -> io::Result<()> {
    let two =
        b"\x01\x00\x00\x00\x00\x00\x00\x00\x02\x00\x00\x00\x00\x00\x00\x00\x03\x00\x00\x00\x04\x00\x00\x00\x05";
    let undefined =
        b"\xff\xff\xff\xff\xff\xff\xff\xff\xff\xff\xff\xff\xff\xff\xff\xff\xff\xff\xff\xff\xff\xff\xff\xff\xff";
    print_widths(&rt, "two", two)?;
    print_widths(&rt, "undefined", undefined)?;
    print_wide(
        &rt,
        "limit",
        b"\x01\x00\x00\x00\x00\x00\x00\x00\xff\xff\xff\xff\x00\x00\x00\x00\x03\x00\x00\x00\x04",
    )?;
    print_wide(
        &rt,
        "over",
        b"\x01\x00\x00\x00\x00\x00\x00\x00\x00\x00\x00\x00\x01\x00\x00\x00\x03\x00\x00\x00\x04",
    )?;
    print_wide(
        &rt,
        "highest",
        b"\x01\x00\x00\x00\x00\x00\x00\x00\x00\x00\x00\x00\x00\x00\x00\x01\x03\x00\x00\x00\x04",
    )?;
    print_order(&rt, "two", two)?;
    print_order(&rt, "undefined", undefined)?;
    print_unfiltered(&rt, "two", two, 4)?;
    print_unfiltered(&rt, "two", two, 429_496_729)?;
    print_unfiltered(&rt, "two", two, 429_496_730)?;
    print_unfiltered(&rt, "two", two, u64::MAX)?;
    print_unfiltered(&rt, "undefined", undefined, u64::MAX)
}
