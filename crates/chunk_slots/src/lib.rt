#![tactic(auto)]
// The slots of a chunk grid: a slot's offsets, the slots in a line, a corner's slot.
ghost use Rattle.std.specs.Prelude.{◌≡◌, Bool, true, cond, List, ℕ, ◌*◌, ◌/◌, ◌%◌, ◌<◌, ◌≤◌, ltb, length, Ok};
ghost use Rattle.refusal.specs.Refusals.{largest64};
ghost use Rattle.chunk_grid.specs.Grid.{Grid, grid_test, aligned, below, corner_test, slot_of};
ghost use Rattle.chunk_grid.specs.Values.{grid_of, GridNumbers, Extents, in_extent, offsets_of};
ghost use Rattle.chunk_grid.specs.Numberings.{NumbersOf, CountsOf, ExtentsOf};
ghost use Rattle.chunk_slots.specs.Values.{handed};
ghost use Rattle.chunk_slots.specs.AllInside.{all_inside};
ghost use Rattle.chunk_slots.specs.Lines.{InLine};

use chunk_grid::numbering::Numbering;
use chunk_grid::{ChunkGrid, dim_at};
use refusal::Refusal;

// Slots in a line: how many, the dimension in which their offsets differ, and the first one's quotient there.
#[derive(Clone, Copy)]
pub struct Line {
    pub slots: u64,
    pub dim: u64,
    pub first: u64,
}

// Tests that a corner is a chunk's.
pub fn corner_test(grid: &ChunkGrid, corner: &[u64]) -> Result<(), Refusal>
    requires { grid_test (grid_of grid.now) ≡ Ok tt }
    ensures { result ≡ corner_test (grid_of grid.now) corner.now }
{
    let n = corner.len();
    if n as u64 != grid.rank {
        return Err(Refusal::Corner);
    }
    if is_aligned(corner, &grid.chunk[..n]) && is_below(corner, &grid.present[..n]) {
        Ok(())
    } else {
        Err(Refusal::Corner)
    }
}

// Whether each member is a multiple of the chunk's length at its place.
fn is_aligned(corner: &[u64], chunk: &[u64]) -> bool
    requires { length corner.now ≡ length chunk.now }
    ensures { result ≡ aligned corner.now chunk.now }
{
    corner
        .iter()
        .zip(chunk)
        .all(|(member, length)| member.is_multiple_of(*length))
}

// Whether each member lies below the extent at its place.
fn is_below(corner: &[u64], extents: &[u64]) -> bool
    requires { length corner.now ≡ length extents.now }
    ensures { result ≡ below corner.now extents.now }
{
    corner
        .iter()
        .zip(extents)
        .all(|(member, extent)| member < extent)
}

// n / m. (The last multipliers are 1, and a division costs.)
fn quotient(n: u64, m: u64) -> u64
    requires { 0 < m }
    ensures { result ≡ n / m }
{
    if m == 1 { n } else { n / m }
}

// n % m. (Behind the leading places a rest is mostly below the multiplier already.)
fn remainder(n: u64, m: u64) -> u64
    requires { 0 < m }
    ensures { result ≡ n % m }
{
    if n < m {
        n
    } else if m == 1 {
        0
    } else {
        n % m
    }
}

// The offset of quotient q; 0 where q isn't below its bound.
fn offset_below(q: u64, length: u64, bound: u64) -> u64
    requires { q < bound → q * length ≤ largest64 }
    ensures { result ≡ cond (ltb q bound) (q * length) 0 }
{
    if q < bound { q * length } else { 0 }
}

// Whether the offset of quotient q passes 2^64 - 1; below its bound it doesn't.
fn offset_overflows(q: u64, length: u64, bound: u64) -> bool
    requires { (0 < length) × (q < bound → q * length ≤ largest64) }
    ensures { result ≡ ltb largest64 (q * length) }
{
    if q < bound {
        false
    } else {
        q.checked_mul(length).is_none()
    }
}

// The offsets of a slot into the lent array, and whether they lie in the present extents: 32 where the grid numbers
// nothing, 33 where one passes 2^64 - 1. (For every element: an array is lent, and quotients are compared with bounds
// that are made once.)
#[inline(always)]
pub fn offsets_in_extent(
    offsets: &mut [u64; 32],
    slot: u64,
    numbering: &Numbering,
) -> Result<bool, Refusal>
    ensures { (g : Grid) → NumbersOf numbering.now g → ExtentsOf numbering.now g
        → (result ≡ offsets_of (in_extent g slot)) × (offsets.new ≡ handed g slot offsets.old) }
{
    if !numbering.numbers {
        return Err(Refusal::NumbersNothing);
    }
    let rank = numbering.grid.rank as usize;
    let rotated = numbering.rotated as usize;
    let mut rest = slot;
    let mut inside = true;
    let mut over = false;
    // The first i places' offsets are stored; `inside` and `over` speak of these places, and `rest` is what is left
    // of the slot.
    for i in 0..rank {
        let d = dim_at(i, rotated);
        let multiplier = numbering.down[i];
        let length = numbering.grid.chunk[d];
        let most = numbering.bound[d];
        let q = quotient(rest, multiplier);
        rest = remainder(rest, multiplier);
        offsets[d] = offset_below(q, length, most);
        inside = inside & (q < most);
        over = over | offset_overflows(q, length, most);
    }
    if over {
        return Err(Refusal::OffsetOverflow);
    }
    Ok(inside)
}

// The line that a slot in the present extents begins. At the first place whose multiplier is 1 the quotient grows
// from slot to slot, until it comes to its bound or the quotient of a place before it changes.
pub fn line_from(slot: u64, numbering: &Numbering) -> Line
    requires { let m = numbering.now in
        ∥ ((g : Grid) × (chunk : List ℕ) × (numbers : Bool) × GridNumbers m.grid.now.rank m.rotated chunk m.down g
        × Extents m.grid.now.rank numbers m.bound g × (offsets_of (in_extent g slot) ≡ Ok true)) ∥₁ }
    ensures { let m = numbering.now in
        (g : Grid) (chunk : List ℕ) (numbers : Bool) → GridNumbers m.grid.now.rank m.rotated chunk m.down g
        → Extents m.grid.now.rank numbers m.bound g → offsets_of (in_extent g slot) ≡ Ok true
        → InLine g chunk slot result }
{
    let rank = numbering.grid.rank as usize;
    let rotated = numbering.rotated as usize;
    let mut slots = u64::MAX;
    let mut rest = slot;
    // The first i places have the same quotients for `slots` slots, and no multiplier 1; `rest` is what is left of
    // the slot.
    for (i, multiplier) in numbering.down[..rank].iter().enumerate() {
        if *multiplier == 1 {
            let d = dim_at(i, rotated);
            let left = numbering.bound[d] - rest;
            return Line {
                slots: slots.min(left),
                dim: d as u64,
                first: rest,
            };
        }
        rest = remainder(rest, *multiplier);
        slots = slots.min(*multiplier - rest);
    }
    Line {
        slots: 1,
        dim: 0,
        first: 0,
    }
}

// Whether the first n slots all lie in the present extents, from the largest quotient at each place. (Once for many
// elements. Where an extent behind the leading one ends before its maximum, the answer is no.)
pub fn all_inside(n: u64, numbering: &Numbering) -> bool
    ensures { let m = numbering.now in
        (g : Grid) (chunk : List ℕ) → GridNumbers m.grid.now.rank m.rotated chunk m.down g → ExtentsOf m g
        → result ≡ all_inside g n }
{
    if !numbering.numbers {
        return false;
    }
    let rank = numbering.grid.rank as usize;
    let rotated = numbering.rotated as usize;
    let mut rests = n;
    // At the first i places all quotients lie below their bounds, and the rests that they leave lie below `rests`.
    for (i, multiplier) in numbering.down[..rank].iter().enumerate() {
        let d = dim_at(i, rotated);
        if numbering.bound[d] < rests.div_ceil(*multiplier) {
            return false;
        }
        rests = *multiplier;
    }
    true
}

// The slot of a corner, where it has one.
pub fn slot_of(corner: &[u64], numbering: &Numbering) -> Option<u64>
    requires { length corner.now ≡ numbering.now.grid.now.rank }
    ensures { (g : Grid) → NumbersOf numbering.now g → CountsOf numbering.now g → result ≡ slot_of g corner.now }
{
    let rotated = numbering.rotated as usize;
    let mut slot = 0u64;
    // `slot` is the sum over the first i places, whose quotients lie below their counts, the leading one's aside.
    for i in 0..corner.len() {
        let d = dim_at(i, rotated);
        let q = corner[d] / numbering.grid.chunk[d];
        if (0 < i) & (numbering.counts[d] <= q) {
            return None;
        }
        slot = slot.checked_add(q.checked_mul(numbering.down[i])?)?;
    }
    Some(slot)
}
