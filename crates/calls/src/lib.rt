#![tactic(auto)]
// What every call from C shares, for any kind of index: the shapes that it is given, and the number that it answers.
ghost use Rattle.std.specs.Prelude.{◌≡◌};
ghost use Rattle.chunk_grid.specs.Values.{grids, built};
ghost use Rattle.calls.specs.Call.{order_of};
ghost use Rattle.calls.specs.Answer.{picked};
ghost use Rattle.calls.specs.Values.{call_from, refused_answer, counted_answer, found_answer};

use chunk_grid::{ChunkGrid, GridOrder};
use index::Entry;
use refusal::Refusal;
use shapes::grid_from_bytes;

// The numbers that the calls name which list and look up chunks: count, address, size, mask.
pub const CHUNK_NAMES: u64 = 4;

// What a call is given: the file, the sizes of its offsets and lengths, the address of the index's header, the bytes of
// one element of the dataset, and its grid. (The grid's order, its rank, whether there are maximum extents, 0: none,
// and its shapes, in 8 bytes a dimension, are as C gives them; `read_grid` makes a grid of them.)
#[derive(Clone, Copy)]
pub struct Call<'a> {
    pub file: &'a [u8],
    pub offset_size: u64,
    pub length_size: u64,
    pub address: u64,
    pub element_bytes: u64,
    pub order: u64,
    pub rank: u64,
    pub chunk: &'a [u8],
    pub present: &'a [u8],
    pub has_maximum: u64,
    pub maximum: &'a [u8],
}

// The order that a number stands for.
#[tactic(auto, unfolding(crate::specs::Call::order_of))]
pub fn grid_order(order: u64) -> GridOrder
    ensures { result ≡ order_of order }
{
    if order == 0 {
        return GridOrder::RowMajor;
    }
    GridOrder::UnlimitedFirst
}

impl Call<'_> {
    // The grid of the dataset's shapes; a maximum is given unless its flag is 0.
    pub fn read_grid(&self) -> Result<ChunkGrid, Refusal>
        ensures { grids result ≡ built (call_from self.now).grid }
    {
        let order = grid_order(self.order);
        let maximum = (self.has_maximum != 0).then_some(self.maximum);
        grid_from_bytes(self.rank, self.chunk, self.present, maximum, order)
    }
}

// The number of an answer that is asked for by its place; where there is none, the first.
#[tactic(auto, unfolding(crate::specs::Answer::picked))]
pub fn pick(which: u64, answer: &[u64]) -> u64
    ensures { result ≡ picked which answer.now }
{
    match answer.get(which as usize) {
        Some(number) => *number,
        None => answer.first().map_or(0, |first| *first),
    }
}

// The same after a refusal.
#[tactic(auto, unfolding(crate::specs::Answer::picked))]
pub fn refused_number(which: u64, refusal: Refusal, names: u64) -> u64
    ensures { result ≡ picked which (refused_answer names refusal) }
{
    match which {
        0 => refusal.number(),
        1 => refusal.first(),
        2 => refusal.second(),
        _ if which - 3 < names => 0,
        _ => refusal.number(),
    }
}

// The same of a list's answer.
#[tactic(auto, unfolding(crate::specs::Answer::answered))]
pub fn counted_number(which: u64, counted: Result<u64, Refusal>, names: u64) -> u64
    ensures { result ≡ picked which (counted_answer names counted) }
{
    match counted {
        Ok(n) => pick(which, &[0, 0, 0, n]),
        Err(r) => refused_number(which, r, names),
    }
}

// The same of what a lookup finds.
#[tactic(auto, unfolding(crate::specs::Answer::answered, crate::specs::Values::entry_numbers))]
pub fn found_number(which: u64, found: Result<Option<Entry>, Refusal>) -> u64
    ensures { result ≡ picked which (found_answer found) }
{
    match found {
        Ok(Some(entry)) => {
            let size = entry.size as u64;
            let mask = entry.mask as u64;
            pick(which, &[0, 0, 0, 1, entry.address, size, mask])
        }
        Ok(None) => pick(which, &[0; 4]),
        Err(r) => refused_number(which, r, CHUNK_NAMES),
    }
}
