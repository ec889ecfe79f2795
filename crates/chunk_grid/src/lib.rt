#![tactic(auto)]
// The chunk grid: which slot of a chunk index is which chunk's.
ghost use Rattle.std.specs.Prelude.{◌≡◌, ℕ, false, not, cond, ◌-◌, ◌<◌, ◌≤◌, length, take, drop};
ghost use Rattle.std.specs.Prelude.{replicate, [], Ok, get_or};
ghost use Rattle.std.specs.Option.{IfSome, is_some, unwrap_or, option_copied};
ghost use Rattle.refusal.specs.Refusals.{largest64};
ghost use Rattle.chunk_grid.specs.Grid.{pairwise, ceil_div, count_of, leading_in, to_front, multipliers, has_zero};
ghost use Rattle.chunk_grid.specs.Grid.{is_unlimited_first, given};
ghost use Rattle.chunk_grid.specs.Grid.{shapes_test, multiplier_test, product_test, grid_test};
ghost use Rattle.chunk_grid.specs.Values.{grid_of, grids, built, dim_at, numbering_test, counts_test, Made};
ghost use Rattle.chunk_grid.specs.Numberings.{NumbersOf, CountsOf, ExtentsOf};

use numbering::Numbering;
use refusal::Refusal;

pub mod numbering;

// How a chunk index numbers its slots: dimensions in their order, or the first unlimited one in front.
#[derive(Clone, Copy)]
pub enum GridOrder {
    RowMajor,
    UnlimitedFirst,
}

// The shapes of a grid: the first `rank` members of each array.
#[derive(Clone, Copy)]
pub struct ChunkGrid {
    pub rank: u64,
    pub chunk: [u64; 32],
    pub present: [u64; 32],
    pub maximum: Option<[u64; 32]>,
    pub order: GridOrder,
}

impl ChunkGrid {
    // The grid of these shapes, where it passes its test; without a maximum its present extents bound it.
    pub fn new(
        rank: u64,
        chunk: &[u64],
        present: &[u64],
        maximum: Option<&[u64]>,
        order: GridOrder,
    ) -> Result<ChunkGrid, Refusal>
        ensures { let m = option_copied maximum.entry in
            grids result ≡ built (given rank chunk.now present.now (is_some m) (unwrap_or m []) order) }
    {
        shapes_test(rank, chunk, present, maximum)?;
        let limits = maximum.unwrap_or(present);
        numbering_test(limits, chunk, order)?;
        Ok(ChunkGrid {
            rank,
            chunk: padded(chunk),
            present: padded(present),
            maximum: maximum.map(padded),
            order,
        })
    }

    // Tests a grid; one that `new` has built passes.
    pub fn test(self) -> Result<(), Refusal>
        ensures { result ≡ grid_test (grid_of self) }
    {
        if 32 < self.rank {
            return Err(Refusal::Rank);
        }
        let rank = self.rank as usize;
        let limits = self.limits();
        numbering_test(&limits[..rank], &self.chunk[..rank], self.order)
    }

    // What the slots of a grid that has passed its test are numbered by; behind its `rank` numbers each array holds
    // zeros. (The test is apart: an answer of this size in a Result is copied once more.)
    pub fn numbering<'a>(&'a self) -> Numbering<'a>
        requires { grid_test (grid_of self.now) ≡ Ok tt }
        ensures numbers { let g = grid_of self.now in
            (result.grid.now ≡ self.now) × NumbersOf result g × CountsOf result g × ExtentsOf result g }
        ensures kept { let zeros = replicate (32 - self.now.rank) 0 in
            (drop self.now.rank result.counts ≡ zeros) × (drop self.now.rank result.bound ≡ zeros)
            × (drop self.now.rank result.down ≡ zeros) }
    {
        let rank = self.rank as usize;
        let limits = self.limits();
        let mut counts = [0u64; 32];
        let mut bound = [0u64; 32];
        let mut down = [0u64; 32];
        let (rotated, numbers) = number(
            &mut counts[..rank],
            &mut bound[..rank],
            &mut down[..rank],
            &limits[..rank],
            &self.present[..rank],
            &self.chunk[..rank],
            self.order,
        );
        Numbering {
            grid: self,
            rotated,
            numbers,
            counts,
            bound,
            down,
        }
    }

    // The extents that the counts are taken from: the maximum, else the present ones. (And what the type says of
    // either, for one who has a reference.)
    fn limits(self) -> [u64; 32]
        ensures { (result ≡ unwrap_or self.maximum self.present)
            × IfSome self.maximum (λ l. length l ≡ 32)
            × ((i : ℕ) → get_or self.present i 0 ≤ largest64) }
    {
        self.maximum.unwrap_or(self.present)
    }
}

// A dimension's chunk count.
fn count_of(extent: u64, length: u64) -> u64
    requires { 0 < length }
    ensures { result ≡ count_of extent length }
{
    if extent == u64::MAX {
        u64::MAX
    } else {
        extent.div_ceil(length)
    }
}

// A number for each dimension, made of its extent and the chunk's length there.
fn pairwise_into<F: Fn(u64, u64) -> u64>(out: &mut [u64], extents: &[u64], chunk: &[u64], f: F)
    requires { (length out.old ≡ length chunk.now) × (length extents.now ≡ length chunk.now)
        × (has_zero chunk.now ≡ false) × ((a b : ℕ) → 0 < b → F.pre f a b) }
    ensures { (g : ℕ → ℕ → ℕ) → ((a b r : ℕ) → 0 < b → F.post f a b r → r ≡ g a b)
        → out.new ≡ pairwise g extents.now chunk.now }
{
    // The first i dimensions' numbers are stored.
    for (i, number) in out.iter_mut().enumerate() {
        *number = f(extents[i], chunk[i]);
    }
}

// The dimension in front of the grid's order.
fn leading(order: GridOrder, counts: &[u64]) -> usize
    ensures { result ≡ leading_in (is_unlimited_first order) counts.now }
{
    match order {
        GridOrder::RowMajor => 0,
        GridOrder::UnlimitedFirst => counts
            .iter()
            .position(|count| *count == u64::MAX)
            .unwrap_or(0),
    }
}

// The multipliers from the last dimension forward: the last is 1, each earlier one the next one times the following
// count. Answers whether none of these counts is 0.
fn multipliers_of(down: &mut [u64], counts: &[u64], rotated: usize) -> bool
    requires { (length down.old ≡ length counts.now) × (rotated ≤ length counts.now - 1)
        × (multiplier_test (drop 1 (to_front rotated counts.now)) ≡ Ok tt) }
    ensures { (result ≡ not (has_zero (drop 1 (to_front rotated counts.now))))
        × (down.new ≡ multipliers (to_front rotated counts.now)) }
{
    let rank = counts.len();
    if rank == 0 {
        return true;
    }
    down[rank - 1] = 1;
    let mut numbers = true;
    // The multipliers from place i - 1 on are stored; `numbers` says whether the counts from place i on are all above
    // 0.
    for i in (1..rank).rev() {
        let count = counts[dim_at(i, rotated)];
        down[i - 1] = down[i] * count.max(1);
        numbers = numbers & (count != 0);
    }
    numbers
}

// Tests the multipliers, from the last dimension forward.
fn multiplier_test(counts: &[u64], rotated: usize) -> Result<(), Refusal>
    requires { rotated ≤ length counts.now - 1 }
    ensures { result ≡ multiplier_test (drop 1 (to_front rotated counts.now)) }
{
    let mut multiplier = 1u64;
    // The counts from place i on pass, and `multiplier` is the one in front of them.
    for i in (1..counts.len()).rev() {
        let count = counts[dim_at(i, rotated)];
        if count == u64::MAX {
            return Err(Refusal::Unlimited);
        }
        multiplier = multiplier
            .checked_mul(count.max(1))
            .ok_or(Refusal::TooManyChunks)?;
    }
    Ok(())
}

// Tests the product of all counts in dimension order, up to an unlimited one.
fn product_test(counts: &[u64]) -> Result<(), Refusal>
    ensures { result ≡ product_test 1 counts.now }
{
    let mut product = 1u64;
    // The product of the counts so far, none of them unlimited, fits 64 bits.
    for count in counts {
        if *count == u64::MAX {
            return Ok(());
        }
        product = product.checked_mul(*count).ok_or(Refusal::TooManyChunks)?;
    }
    Ok(())
}

// Makes every number of a grid whose shapes have one rank and that passes its tests. Answers the dimension in front,
// and whether any slot is numbered at all.
fn number(
    counts: &mut [u64],
    bound: &mut [u64],
    down: &mut [u64],
    limits: &[u64],
    present: &[u64],
    chunk: &[u64],
    order: GridOrder,
) -> (u64, bool)
    requires { (length counts.old ≡ length chunk.now) × (length bound.old ≡ length chunk.now)
        × (length down.old ≡ length chunk.now) × (length limits.now ≡ length chunk.now)
        × (length present.now ≡ length chunk.now)
        × (numbering_test (is_unlimited_first order) limits.now chunk.now ≡ Ok tt) }
    ensures { Made (is_unlimited_first order) limits.now present.now chunk.now
        result.0 result.1 counts.new bound.new down.new }
{
    pairwise_into(counts, limits, chunk, count_of);
    pairwise_into(bound, present, chunk, u64::div_ceil);
    let rotated = leading(order, counts);
    let numbers = multipliers_of(down, counts, rotated);
    (rotated as u64, numbers)
}

// The dimension at place i of the grid's order: dimension `rotated` is in front, those before it are one place later.
pub fn dim_at(i: usize, rotated: usize) -> usize
    ensures { result ≡ dim_at rotated i }
{
    if i == 0 {
        return rotated;
    }
    if i <= rotated { i - 1 } else { i }
}

// Tests the lengths of the shapes.
fn shapes_test(
    rank: u64,
    chunk: &[u64],
    present: &[u64],
    maximum: Option<&[u64]>,
) -> Result<(), Refusal>
    ensures { (o : GridOrder) → let m = option_copied maximum.entry in
        result ≡ shapes_test (given rank chunk.now present.now (is_some m) (unwrap_or m []) o) }
{
    if 32 < rank {
        return Err(Refusal::Rank);
    }
    if chunk.len() as u64 != rank {
        return Err(Refusal::Rank);
    }
    if present.len() as u64 != rank {
        return Err(Refusal::PresentRank);
    }
    if let Some(maximum) = maximum {
        if maximum.len() as u64 != rank {
            return Err(Refusal::MaximumRank);
        }
    }
    Ok(())
}

// The tests of a grid whose shapes have one rank.
fn numbering_test(limits: &[u64], chunk: &[u64], order: GridOrder) -> Result<(), Refusal>
    requires { (length limits.now ≡ length chunk.now) × (length chunk.now ≤ 32) }
    ensures { result ≡ numbering_test (is_unlimited_first order) limits.now chunk.now }
{
    if chunk.contains(&0) {
        return Err(Refusal::ChunkLength);
    }
    let mut counts = [0u64; 32];
    let n = chunk.len();
    pairwise_into(&mut counts[..n], limits, chunk, count_of);
    counts_test(&counts[..n], order)
}

// The tests of a grid's counts: the multipliers, then the product.
fn counts_test(counts: &[u64], order: GridOrder) -> Result<(), Refusal>
    ensures { result ≡ counts_test (is_unlimited_first order) counts.now }
{
    multiplier_test(counts, leading(order, counts))?;
    product_test(counts)
}

// The numbers of s in an array, up to 32 of them.
fn padded(s: &[u64]) -> [u64; 32]
    ensures { take (length s.now) result ≡ take 32 s.now }
{
    std::array::from_fn(|i| s.get(i).copied().unwrap_or(0))
}
