#![tactic(auto)]
// Compares the place of slots with a plain walk through the super blocks, for every served combination of least block
// elements, max bits and page exponent; then prints sizes, places and page bits of a worked array.
ghost use Rattle.std.specs.Prelude.{◌≡◌};

use ea_geometry::sizes::Sizes;
use ea_geometry::{EaGeometry, Place};
use ea_header::Parameters;
use std::io;
use structures::page_bits::page_is_initialized;

// How many places were compared, and how many of them differ.
#[derive(Clone, Copy, Default)]
struct Tally {
    compared: u64,
    wrong: u64,
}

impl Tally {
    fn with(self, same: bool) -> Self {
        let compared = self.compared.wrapping_add(1);
        if same {
            return Self {
                compared,
                wrong: self.wrong,
            };
        }
        Self {
            compared,
            wrong: self.wrong.wrapping_add(1),
        }
    }

    fn plus(self, other: Tally) -> Self {
        Self {
            compared: self.compared.wrapping_add(other.compared),
            wrong: self.wrong.wrapping_add(other.wrong),
        }
    }
}

// A super block that the walk has reached: its data blocks, their elements, its first slot and how many slots it has.
#[derive(Clone, Copy)]
struct Reached {
    super_block: u64,
    blocks: u64,
    elements: u64,
    first: u64,
    slots: u64,
}

impl Reached {
    // Elements and data blocks are doubled in turn, so the slots are doubled each time.
    fn next(self) -> Self {
        let mut elements = self.elements;
        let mut blocks = self.blocks;
        if self.super_block % 2 == 0 {
            elements = elements.wrapping_add(elements);
        } else {
            blocks = blocks.wrapping_add(blocks);
        }
        Self {
            super_block: self.super_block.wrapping_add(1),
            blocks,
            elements,
            first: self.first.wrapping_add(self.slots),
            slots: self.slots.wrapping_add(self.slots),
        }
    }
}

// What the walk knows of the array: its super blocks, how many of them the index block names the data blocks of, and a
// page's elements.
#[derive(Clone, Copy)]
struct Array {
    supers: u64,
    direct: u64,
    page: u64,
}

impl Array {
    // The place of element i of data block k of a super block, and its bit is that one: none past the last super block.
    fn place(self, at: Reached, k: u64, i: u64, bit: u64) -> Place {
        if self.supers <= at.super_block {
            return Place::Nowhere;
        }
        if self.direct <= at.super_block && self.page < at.elements {
            return Place::Page {
                super_block: at.super_block,
                block: k,
                element: i,
                page: quotient(i, self.page),
                bit,
            };
        }
        Place::Block {
            super_block: at.super_block,
            block: k,
            element: i,
        }
    }

    // The first, the last and the one-past slot of a super block.
    fn compare(self, sizes: Sizes, at: Reached) -> Tally {
        let last = at.first.wrapping_add(at.slots).wrapping_sub(1);
        let blocks = at.blocks.wrapping_sub(1);
        let elements = at.elements.wrapping_sub(1);
        let bits = quotient(at.slots, self.page).wrapping_sub(1);
        let past = at.next();
        Tally::default()
            .with(sizes.place_of(at.first) == self.place(at, 0, 0, 0))
            .with(sizes.place_of(last) == self.place(at, blocks, elements, bits))
            .with(sizes.place_of(past.first) == self.place(past, 0, 0, 0))
    }

    fn compare_all(self, sizes: Sizes, start: Reached) -> Tally {
        let mut t = Tally::default();
        let mut at = start;
        for _ in 0..self.supers {
            t = t.plus(self.compare(sizes, at));
            at = at.next();
        }
        t
    }
}

// a / b, and 0 for b = 0.
fn quotient(a: u64, b: u64) -> u64 {
    a.checked_div(b).unwrap_or(0)
}

// The first and the last inline slot.
fn compare_inline(sizes: Sizes) -> Tally {
    let inline = sizes.parameters.idx_blk_elmts as u64;
    if inline == 0 {
        return Tally::default();
    }
    let last = inline - 1;
    Tally::default()
        .with(sizes.place_of(0) == Place::Inline(0))
        .with(sizes.place_of(last) == Place::Inline(last))
}

// 2^k, for k below 64.
fn power(k: u8) -> u64 {
    1u64 << (k as u64 % 64)
}

fn parameters_of(least: u8, bits: u8, page: u8, inline: u8, minimum: u8) -> Parameters
    ensures min_dblk_nelmts_value { (result.min_dblk_nelmts ≡ least) × (result.max_nelmts_bits ≡ bits) }
    ensures super_blk_min_nelmts_value { (result.super_blk_min_nelmts ≡ minimum)
        × (result.max_dblk_nelmts_bits ≡ page) }
{
    Parameters {
        client_id: 0,
        element_size: 8,
        max_nelmts_bits: bits,
        idx_blk_elmts: inline,
        min_dblk_nelmts: least,
        super_blk_min_nelmts: minimum,
        max_dblk_nelmts_bits: page,
    }
}

// An array with least block elements 2^log.
fn compare_parameters(log: u8, bits: u8, page: u8, inline: u8, minimum: u8) -> Tally {
    let least = power(log);
    let parameters = parameters_of((least % 256) as u8, bits, page, inline, minimum);
    if !parameters.is_served() {
        return Tally::default().with(false);
    }
    let sizes = Sizes { parameters };
    let supers = bits.saturating_sub(log) as u64 + 1;
    let array = Array {
        supers,
        direct: supers.min(minimum as u64),
        page: power(page),
    };
    let start = Reached {
        super_block: 0,
        blocks: 1,
        elements: least,
        first: inline as u64,
        slots: least,
    };
    compare_inline(sizes).plus(array.compare_all(sizes, start))
}

// Every page exponent to 32, within all max bits to 62, within all least block elements to 2^7.
fn print_comparison(rt: &impl Print, inline: u8, minimum: u8) -> io::Result<()> {
    let mut t = Tally::default();
    for log in 0..8 {
        for bits in 0..63 {
            for page in 0..33 {
                t = t.plus(compare_parameters(log, bits, page, inline, minimum));
            }
        }
    }
    println!(rt;
        "inline {inline} minimum {minimum} compared {} wrong {}",
        t.compared, t.wrong
    )
}

fn print_element(rt: &impl Print, super_block: u64, block: u64, element: u64) -> io::Result<()> {
    print!(rt; " super block {super_block} block {block} element {element}")
}

fn print_place(rt: &impl Print, slot: u64, p: Place) -> io::Result<()> {
    print!(rt; "slot {slot}")?;
    match p {
        Place::Inline(i) => print!(rt; " inline {i}")?,
        Place::Block {
            super_block,
            block,
            element,
        } => print_element(rt, super_block, block, element)?,
        Place::Page {
            super_block,
            block,
            element,
            page,
            bit,
        } => {
            print_element(rt, super_block, block, element)?;
            print!(rt; " page {page} bit {bit}")?;
        }
        Place::Nowhere => print!(rt; " nowhere")?,
    }
    println!(rt)
}

// The array with least block elements 16, max bits 32, page exponent 10, inline 2 and minimum 4.
fn worked() -> Sizes {
    let parameters = parameters_of(16, 32, 10, 2, 4);
    Sizes { parameters }
}

fn print_worked(rt: &impl Print, offset_size: u64) -> io::Result<()> {
    let sizes = worked();
    let parameters = sizes.parameters;
    let geometry = EaGeometry {
        parameters,
        offset_size,
    };
    println!(rt;
        "offset size {offset_size} direct {} super {} index block {}",
        sizes.direct_pointers(),
        sizes.super_pointers(),
        geometry.index_extent()
    )
}

fn print_worked_place(rt: &impl Print, slot: u64) -> io::Result<()> {
    print_place(rt, slot, worked().place_of(slot))
}

// Every bit of some page bits that begin at byte 1.
fn print_bits(rt: &impl Print, s: &[u8]) -> io::Result<()> {
    if s.len() < 3 {
        return Ok(());
    }
    for bit in 0..16 {
        print!(rt; "{}", u8::from(page_is_initialized(s, 1, bit)))?;
    }
    println!(rt)
}

fn main(rt: HostRuntime) -> io::Result<()> {
    print_comparison(&rt, 0, 0)?;
    print_comparison(&rt, 4, 4)?;
    print_comparison(&rt, 255, 32)?;
    print_worked(&rt, 2)?;
    print_worked(&rt, 8)?;
    print_worked(&rt, 0xffff_ffff_ffff_ffff)?;
    print_worked_place(&rt, 0)?;
    print_worked_place(&rt, 1)?;
    print_worked_place(&rt, 2)?;
    print_worked_place(&rt, 17)?;
    print_worked_place(&rt, 18)?;
    print_worked_place(&rt, 242)?;
    print_worked_place(&rt, 131_060)?;
    print_worked_place(&rt, 138_226)?;
    print_worked_place(&rt, 8_589_934_577)?;
    print_worked_place(&rt, 8_589_934_578)?;
    print_worked_place(&rt, 0xffff_ffff_ffff_ffff)?;
    print_bits(&rt, b"\xff\x81\x43")?;
    print_bits(&rt, b"\xff\x01\xfe")
}
