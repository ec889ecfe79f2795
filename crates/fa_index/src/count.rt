// The walk of a fixed array that tests and counts.
ghost use Rattle.std.specs.Prelude.{◌≡◌, [], ℕ, Ok};
ghost use Rattle.refusal.specs.Values.{counted_of};
ghost use Rattle.chunk_grid.specs.Grid.{Grid};
ghost use Rattle.elements.specs.Runs.{pages_from};
ghost use Rattle.elements.specs.Values.{elements_of, Reads};
ghost use Rattle.fa_geometry.specs.Layout.{fixed_pages};
ghost use Rattle.fa_blocks.specs.Blocks.{fixed_pages_of};
ghost use Rattle.fa_blocks.specs.Values.{fixed_of, fixed_in};
ghost use Rattle.fa_walk.specs.Walk.{fixed_walk};
ghost use Rattle.fa_index.specs.Given.{ReadsAll};

use element_runs::count::count_elements;
use elements::ElementReader;
use fa_blocks::{ArrayInFile, PagedBlock, UnpagedBlock, never_stored};
use fa_geometry::{FixedArray, Layout};
use refusal::Refusal;

// Tests the structures of an array in slot order, and counts the records of its elements.
#[tactic(auto, using(fa_header::proofs::Served::tested_serves))]
pub fn count_walk(file: &[u8], array: FixedArray, reader: &ElementReader) -> Result<u64, Refusal>
    requires { ReadsAll array reader.now }
    ensures { (grid : Grid) (n : ℕ) → Reads reader.now grid n
        → result ≡ counted_of (fixed_walk (fixed_of file.now array) (elements_of file.now reader.now grid n)) }
{
    array.header.served_test()?;
    let layout = Layout { array };
    if never_stored(array) {
        return Ok(0);
    }
    let stored = ArrayInFile { file, layout };
    stored.test_block()?;
    if layout.is_paged() {
        return count_pages(PagedBlock { array: stored }, reader);
    }
    let pos = UnpagedBlock { array: stored }.element_position(0);
    count_elements(file, pos, array.header.num_elements, 0, reader)
}

// The same of the pages of a data block that is tested.
fn count_pages(block: PagedBlock, reader: &ElementReader) -> Result<u64, Refusal>
    requires { ReadsAll block.array.layout.array reader.now }
    ensures { let a = fixed_in block.entry.array in
        (grid : Grid) (n : ℕ) → Reads reader.now grid n
        → result ≡ counted_of (pages_from (elements_of a.file reader.now grid n)
        (fixed_pages_of a) (fixed_pages a.header) 0 0 (Ok [])) }
{
    let layout = block.array.layout;
    let pages = layout.pages();
    let page = layout.page_elements();
    let mut total = 0;
    let mut ahead = None;
    // What is counted, and the walk from page p on, are the whole.
    'pages: for p in 0..pages {
        let turn = block.enter_page_in_turn(p, ahead);
        ahead = turn.ahead;
        let Some(pos) = turn.found? else {
            continue 'pages;
        };
        let entries = layout.page_entries(p);
        total += count_elements(block.array.file, pos, entries, p * page, reader)?;
    }
    Ok(total)
}
