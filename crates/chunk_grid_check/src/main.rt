#![tactic(auto)]
// Prints what the grids of its input answer: refusals, the numbers of a grid, the offsets of slots, and the slot of a
// corner. The input is numbers in decimal: how many cases, and each case. A case begins with 0 where its shapes are
// numbers, else they are bytes; a list is its length and its members.
ghost use Rattle.std.specs.Prelude.{◌≡◌, ◌≤◌, length, Ok};
ghost use Rattle.chunk_grid.specs.Grid.{grid_test};
ghost use Rattle.chunk_grid.specs.Values.{grid_of};

use check_lines::{list, number, print_first, print_numbers, print_refusal};
use chunk_grid::numbering::Numbering;
use chunk_grid::{ChunkGrid, GridOrder};
use chunk_slots::{corner_test, offsets_in_extent, slot_of};
use refusal::Refusal;
use shapes::{grid_from_bytes, read_shape};
use std::io;
use std::io::Read;

// A grid's numbers, in the grid's order where they are multipliers, in dimension order elsewhere.
fn print_numbering(rt: &impl Print, numbering: &Numbering) -> io::Result<()> {
    let rank = numbering.grid.rank;
    print!(rt; " leads {}", numbering.rotated)?;
    if numbering.numbers {
        print!(rt; " numbers")?;
    } else {
        print!(rt; " numbers nothing")?;
    }
    print!(rt; " counts")?;
    print_first(rt, &numbering.counts, rank)?;
    print!(rt; " bounds")?;
    print_first(rt, &numbering.bound, rank)?;
    print!(rt; " multipliers")?;
    print_first(rt, &numbering.down, rank)?;
    println!(rt)
}

// What a slot's offsets come to, and the offsets.
fn print_slot(rt: &impl Print, slot: u64, numbering: &Numbering) -> io::Result<()> {
    print!(rt; "  slot {slot}:")?;
    let mut offsets = [7u64; 32];
    match offsets_in_extent(&mut offsets, slot, numbering) {
        Ok(true) => {}
        Ok(false) => print!(rt; " dropped")?,
        Err(r) => print_refusal(rt, r)?,
    }
    print_first(rt, &offsets, numbering.grid.rank)?;
    println!(rt)
}

fn print_slots(rt: &impl Print, from: u64, to: u64, numbering: &Numbering) -> io::Result<()> {
    for slot in from..to {
        print_slot(rt, slot, numbering)?;
    }
    Ok(())
}

// A corner's refusal, its slot, or none.
fn print_corner(rt: &impl Print, corner: &[u64], numbering: &Numbering) -> io::Result<()>
    requires { grid_test (grid_of numbering.now.grid.now) ≡ Ok tt }
{
    print!(rt; "  corner")?;
    print_numbers(rt, corner)?;
    print!(rt; ":")?;
    if let Err(r) = corner_test(numbering.grid, corner) {
        return print_refusal(rt, r);
    }
    if corner.len() as u64 != numbering.grid.rank {
        return Ok(());
    }
    match slot_of(corner, numbering) {
        Some(slot) => print!(rt; " {slot}"),
        None => print!(rt; " none"),
    }
}

// A built grid's numbers, what the slots from `from` to `to` come to, and a corner.
fn print_built(
    rt: &impl Print,
    built: Result<ChunkGrid, Refusal>,
    from: u64,
    to: u64,
    corner: &[u64],
) -> io::Result<()> {
    let grid = match built {
        Ok(grid) => grid,
        Err(r) => {
            print_refusal(rt, r)?;
            return println!(rt);
        }
    };
    if let Err(r) = grid.test() {
        return print_refusal(rt, r);
    }
    let numbering = grid.numbering();
    print_numbering(rt, &numbering)?;
    print_slots(rt, from, to, &numbering)?;
    print_corner(rt, corner, &numbering)?;
    println!(rt)
}

// The numbers as bytes, at most as many as `out` has; how many they are.
fn bytes_of(out: &mut [u8], numbers: &[u64]) -> usize
    ensures { result ≤ length out.old }
{
    let room = out.len();
    for (byte, n) in out.iter_mut().zip(numbers) {
        *byte = (*n % 256) as u8;
    }
    numbers.len().min(room)
}

// A grid whose shapes and corner are given as bytes, without slots.
fn print_bytes(
    rt: &impl Print,
    rank: u64,
    chunk: &[u64],
    present: &[u64],
    maximum: Option<&[u64]>,
    corner: &[u64],
) -> io::Result<()> {
    let mut lengths = [0u8; 34];
    let mut extents = [0u8; 34];
    let mut limits = [0u8; 34];
    let mut place = [0u8; 34];
    let c = bytes_of(&mut lengths, chunk);
    let p = bytes_of(&mut extents, present);
    let m = bytes_of(&mut limits, maximum.unwrap_or(&[]));
    let k = bytes_of(&mut place, corner);
    let built = grid_from_bytes(
        rank,
        &lengths[..c],
        &extents[..p],
        maximum.is_some().then_some(&limits[..m]),
        GridOrder::UnlimitedFirst,
    );
    let mut shape = [0u64; 32];
    let mut n = 0;
    if rank <= 32 {
        n = read_shape(&mut shape, rank, &place[..k]);
    }
    print_shape(rt, built, &shape, n)
}

// The corner of the first n numbers.
fn print_shape(
    rt: &impl Print,
    built: Result<ChunkGrid, Refusal>,
    shape: &[u64; 32],
    n: u64,
) -> io::Result<()> {
    if n <= 32 {
        print_built(rt, built, 0, 0, &shape[..n as usize])?;
    }
    Ok(())
}

// A case: its kind, its shapes, a range of slots, and a corner; answers where the next one begins.
fn run_case(rt: &impl Print, s: &[u8], from: usize) -> io::Result<usize> {
    let kind = number(s, from);
    let rank = number(s, kind.at);
    let mut chunk = [0u64; 34];
    let mut present = [0u64; 34];
    let mut maximum = [0u64; 34];
    let mut corner = [0u64; 34];
    let c = list(&mut chunk, s, rank.at);
    let p = list(&mut present, s, c.at);
    let has = number(s, p.at);
    let m = list(&mut maximum, s, has.at);
    let start = number(s, m.at);
    let end = number(s, start.at);
    let k = list(&mut corner, s, end.at);
    let x = c.value as usize;
    let y = p.value as usize;
    let z = m.value as usize;
    let w = k.value as usize;
    let limits = (has.value != 0).then_some(&maximum[..z]);
    print_case(
        rt,
        kind.value,
        rank.value,
        &chunk[..x],
        &present[..y],
        limits,
        start.value,
        end.value,
        &corner[..w],
    )?;
    Ok(k.at)
}

// The grid of these shapes in both orders, or of these bytes.
fn print_case(
    rt: &impl Print,
    kind: u64,
    rank: u64,
    chunk: &[u64],
    present: &[u64],
    maximum: Option<&[u64]>,
    from: u64,
    to: u64,
    corner: &[u64],
) -> io::Result<()> {
    if kind != 0 {
        print!(rt; "bytes")?;
        return print_bytes(rt, rank, chunk, present, maximum, corner);
    }
    print!(rt; "R")?;
    let rows = ChunkGrid::new(rank, chunk, present, maximum, GridOrder::RowMajor);
    print_built(rt, rows, from, to, corner)?;
    print!(rt; "U")?;
    let first = ChunkGrid::new(rank, chunk, present, maximum, GridOrder::UnlimitedFirst);
    print_built(rt, first, from, to, corner)
}

// `count` cases.
fn run(rt: &impl Print, s: &[u8], count: u64, from: usize) -> io::Result<()> {
    let mut at = from;
    for _ in 0..count {
        at = run_case(rt, s, at)?;
    }
    Ok(())
}

// What is behind these bytes isn't read.
const INPUT_BYTES: u64 = 65536;

fn main(rt: HostRuntime) -> io::Result<()> {
    let mut input = Vec::new(rt.alloc());
    rt.reader().take(INPUT_BYTES).read_to_end(&mut input)?;
    let count = number(&input, 0);
    run(&rt, &input, count.value, count.at)
}
