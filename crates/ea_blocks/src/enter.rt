// Stepping into super blocks, data blocks and pages.
ghost use Rattle.std.specs.Prelude.{◌≡◌, true, cond, ◌+◌, ◌<◌, ◌≤◌, length, None, Some};
ghost use Rattle.std.specs.Option.{ForNone, ForSome};
ghost use Rattle.ea_geometry.specs.Place.{in_pages};
ghost use Rattle.ea_geometry.specs.Sizes.{super_blocks, blocks, direct_super_blocks, pages};
ghost use Rattle.ea_geometry.specs.Extents.{super_extent};
ghost use Rattle.ea_blocks.specs.Structures.{data_block, data_page, test_of};
ghost use Rattle.ea_blocks.specs.Structures.{super_block_at, block_at, data_page_at, block_undefined, page_set};
ghost use Rattle.ea_blocks.specs.Entered.{EnteredSuper, EnteredBlock, EnteredPage, TestedAhead};
ghost use Rattle.ea_blocks.specs.Values.{array_in, NamedAt, pointer_of};

use crate::{ArrayInFile, BoundedArray};
use checksum::TwoChecked;
use refusal::Refusal;
use structures::enter::{Ahead, Row, Turn, enter, enter_in_turn};

// The data blocks of super block u, which lies at super_at; none where the index block names the data blocks. The
// pointers to them lie in the file.
#[derive(Clone, Copy)]
pub struct BlockRow<'a> {
    pub array: ArrayInFile<'a>,
    pub u: u64,
    pub super_at: Option<u64>,
    pub ghost below: { u < super_blocks array.array.extents.sizes.parameters },
    pub ghost direct: { ForNone super_at (u < direct_super_blocks array.array.extents.sizes.parameters) },
    pub ghost inside: { ForSome super_at (λ at. (direct_super_blocks array.array.extents.sizes.parameters ≤ u)
        × (at + super_extent array.array.extents.sizes.parameters array.array.extents.offset_size u
        ≤ length array.array.file.now)) },
}

// The pages of data block k of super block u, which lies at super_at and in the file; the data block lies at `at`, and
// is read by pages.
#[derive(Clone, Copy)]
pub struct PageRow<'a> {
    pub array: BoundedArray<'a>,
    pub u: u64,
    pub super_at: u64,
    pub k: u64,
    pub at: u64,
    pub ghost super_below: { u < super_blocks array.extents.sizes.parameters },
    pub ghost below: { k < blocks u },
    pub ghost paged: { in_pages array.extents.sizes.parameters u ≡ true },
    pub ghost inside: { super_at + super_extent array.extents.sizes.parameters array.extents.offset_size u
        ≤ length array.file.now },
    pub ghost begins: { at ≤ length array.file.now },
}

impl<'a> ArrayInFile<'a> {
    // Steps into super block u: its pointer is undefined; or it lies there, tested; or there is none, since the index
    // block names its data blocks.
    pub fn enter_super(self, u: u64) -> Result<Option<Option<u64>>, Refusal>
        requires { u < super_blocks self.array.extents.sizes.parameters }
        ensures { EnteredSuper (array_in self.entry.array) u result }
    {
        if u < self.array.extents.sizes.direct_super_blocks() {
            return Ok(Some(None));
        }
        let Some(at) = self.super_pointer(u) else {
            return Ok(None);
        };
        self.array.test_super_block(u, at)?;
        Ok(Some(Some(at)))
    }
}

impl<'a> Row for BlockRow<'a> {
    ghost inside = { λ r k. k < blocks r.u };

    ghost placed = { λ r. NamedAt (array_in r.array.array) r.u r.super_at };

    ghost lies = { λ r k. let a = array_in r.array.array in pointer_of (block_undefined a r.u k) (block_at a r.u k) };

    ghost test = { λ r k. test_of (array_in r.array.array) (data_block r.u k) };

    fn find(self, k: u64) -> Option<u64> {
        self.block_pointer(k)
    }

    #[tactic(auto, using(crate::proofs::PointerValues::pointer_at_lem))]
    fn test_one(self, _k: u64, at: u64) -> Result<(), Refusal> {
        self.array.array.test_data_block(self.u, at)
    }

    // Two blocks are a pair where both are defined and they aren't read by pages.
    fn test_pair(self, k: u64, at: u64) -> Option<TwoChecked> {
        let array = self.array.array;
        let blocks = array.extents.sizes.blocks(self.u);
        if k + 1 >= blocks || array.extents.sizes.in_pages(self.u) {
            return None;
        }
        let next = self.find(k + 1)?;
        Some(array.test_two_blocks(self.u, at, next))
    }
}

impl<'a> BlockRow<'a> {
    // Steps into data block k.
    #[tactic(auto, using(crate::proofs::Entering::block_entered))]
    pub fn enter_block(self, k: u64) -> Result<Option<u64>, Refusal>
        requires { k < blocks self.u }
        ensures { let r = self.entry in let a = array_in r.array.array in NamedAt a r.u r.super_at
            → EnteredBlock a r.u k result }
    {
        enter(self, k)
    }

    // The same in the turn of a walk from data block to data block, by a result that an earlier turn has left.
    #[tactic(auto, using(crate::proofs::Entering::block_entered))]
    pub fn enter_block_in_turn(self, k: u64, ahead: Option<Ahead>) -> Turn
        requires { k < blocks self.u }
        ensures { let r = self.entry in let a = array_in r.array.array in NamedAt a r.u r.super_at
            → TestedAhead a (data_block r.u) ahead → EnteredBlock a r.u k result.found
            × TestedAhead a (data_block r.u) result.ahead }
    {
        enter_in_turn(self, k, ahead)
    }
}

impl<'a> Row for PageRow<'a> {
    ghost inside = { λ r p. p < pages r.array.extents.sizes.parameters r.u };

    ghost placed = { λ r. let a = array_in r.array in (r.super_at ≡ super_block_at a r.u)
        × (r.at ≡ block_at a r.u r.k) };

    ghost lies = { λ r p. let a = array_in r.array in cond (page_set a r.u r.k p)
        (Some (data_page_at a r.u r.k p)) None };

    ghost test = { λ r p. test_of (array_in r.array) (data_page r.u r.k p) };

    fn find(self, p: u64) -> Option<u64> {
        if self.page_set(p) {
            Some(self.at + self.array.extents.page_at(p))
        } else {
            None
        }
    }

    fn test_one(self, _p: u64, at: u64) -> Result<(), Refusal> {
        self.array.test_page(at)
    }

    // Two pages are a pair where both are set.
    fn test_pair(self, p: u64, at: u64) -> Option<TwoChecked> {
        let pages = self.array.extents.sizes.pages(self.u);
        if p + 1 >= pages {
            return None;
        }
        let next = self.find(p + 1)?;
        Some(self.array.test_two_pages(at, next))
    }
}

impl<'a> PageRow<'a> {
    // Steps into page p.
    #[tactic(auto, using(crate::proofs::Entering::page_entered))]
    pub fn enter_page(self, p: u64) -> Result<Option<u64>, Refusal>
        requires { p < pages self.array.extents.sizes.parameters self.u }
        ensures { let r = self.entry in let a = array_in r.array in r.super_at ≡ super_block_at a r.u
            → r.at ≡ block_at a r.u r.k → EnteredPage a r.u r.k p result }
    {
        enter(self, p)
    }

    // The same in the turn of a walk from page to page, by a result that an earlier turn has left.
    #[tactic(auto, using(crate::proofs::Entering::page_entered))]
    pub fn enter_page_in_turn(self, p: u64, ahead: Option<Ahead>) -> Turn
        requires { p < pages self.array.extents.sizes.parameters self.u }
        ensures { let r = self.entry in let a = array_in r.array in r.super_at ≡ super_block_at a r.u
            → r.at ≡ block_at a r.u r.k → TestedAhead a (data_page r.u r.k) ahead
            → EnteredPage a r.u r.k p result.found × TestedAhead a (data_page r.u r.k) result.ahead }
    {
        enter_in_turn(self, p, ahead)
    }
}
