// Stepping into the pages of a fixed array: the page bit is looked at, then the page is tested.
ghost use Rattle.std.specs.Prelude.{◌<◌, cond, None, Some};
ghost use Rattle.refusal.specs.Refusals.{figure};
ghost use Rattle.structures.specs.Entered.{TestedBy};
ghost use Rattle.fa_geometry.specs.Layout.{fixed_pages};
ghost use Rattle.fa_blocks.specs.Blocks.{fixed_page_set, fixed_page_test, fixed_page_position};
ghost use Rattle.fa_blocks.specs.Values.{fixed_in, EnteredFixedPage};

use crate::PagedBlock;
use checksum::TwoChecked;
use refusal::Refusal;
use structures::enter::{Ahead, Row, Turn, enter, enter_in_turn};
use structures::{Kind, test_two_structures};

impl<'a> Row for PagedBlock<'a> {
    ghost inside = { λ b p. p < fixed_pages b.array.layout.array.header };

    ghost placed = { λ b. Unit {0} };

    ghost lies = { λ b p. let a = fixed_in b.array in cond (fixed_page_set a p)
        (Some (figure (fixed_page_position a p))) None };

    ghost test = { λ b p. fixed_page_test (fixed_in b.array) p };

    fn find(self, p: u64) -> Option<u64> {
        if self.page_set(p) {
            Some(self.page_position(p))
        } else {
            None
        }
    }

    fn test_one(self, p: u64, _at: u64) -> Result<(), Refusal> {
        self.test_page(p)
    }

    // Two pages are a pair where both are set, they have as many entries, and neither is refused by 31.
    fn test_pair(self, p: u64, at: u64) -> Option<TwoChecked> {
        let layout = self.array.layout;
        let pages = layout.pages();
        if p + 1 >= pages {
            return None;
        }
        let next = self.find(p + 1)?;
        layout.page_offset(p + 1)?;
        if layout.page_entries(p) != layout.page_entries(p + 1) {
            return None;
        }
        let len = layout.page_extent(p);
        Some(test_two_structures(self.array.file, Kind::Page, at, next, len))
    }
}

impl<'a> PagedBlock<'a> {
    // Steps into page p.
    #[tactic(auto, using(crate::proofs::FixedBlocks::page_entered))]
    pub fn enter_page(self, p: u64) -> Result<Option<u64>, Refusal>
        requires { p < fixed_pages self.array.layout.array.header }
        ensures { EnteredFixedPage (fixed_in self.entry.array) p result }
    {
        enter(self, p)
    }

    // The same in the turn of a walk from page to page, by a result that an earlier turn has left.
    #[tactic(auto, using(crate::proofs::FixedBlocks::page_entered))]
    pub fn enter_page_in_turn(self, p: u64, ahead: Option<Ahead>) -> Turn
        requires { p < fixed_pages self.array.layout.array.header }
        ensures { let a = fixed_in self.entry.array in TestedBy (fixed_page_test a) ahead
            → EnteredFixedPage a p result.found × TestedBy (fixed_page_test a) result.ahead }
    {
        enter_in_turn(self, p, ahead)
    }
}
