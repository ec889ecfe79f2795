#![tactic(auto)]
// The walk that tests and counts, behind the inline elements.
ghost use Rattle.std.specs.Prelude.{◌≡◌, [], ℕ, ◌-◌, Ok};
ghost use Rattle.refusal.specs.Values.{plus};
ghost use Rattle.chunk_grid.specs.Grid.{Grid};
ghost use Rattle.elements.specs.Values.{elements_of, Reads};
ghost use Rattle.ea_geometry.specs.Slots.{first_slot};
ghost use Rattle.ea_blocks.specs.Values.{array_in};
ghost use Rattle.ea_walk.specs.Walk.{supers_from};
ghost use Rattle.ea_count.specs.Values.{WalkFrom};

use ea_blocks::ArrayInFile;
use ea_blocks::enter::{BlockRow, PageRow};
use element_runs::count::count_elements;
use elements::ElementReader;
use refusal::Refusal;

pub mod walk;

// Walks the super blocks from `begin` up to `end`, with their data blocks and pages; `first` records are counted
// before.
pub fn count_blocks(
    array: ArrayInFile,
    reader: &ElementReader,
    first: u64,
    begin: u64,
    end: u64,
) -> Result<u64, Refusal>
    requires { WalkFrom array.array reader.now first begin end }
    ensures { let a = array_in array.entry.array in
        (grid : Grid) (n : ℕ) → Reads reader.now grid n
        → result ≡ plus first (supers_from a (elements_of a.file reader.now grid n) (end - begin) begin
        (first_slot a.parameters begin) (Ok [])) }
{
    let file = array.array.file;
    let extents = array.array.extents;
    let sizes = extents.sizes;
    let count = reader.count;
    let directs = sizes.direct_super_blocks();
    let page = sizes.page_elements();
    let mut total = first;
    let mut slot = sizes.first_slot(begin);
    // What is counted, and the walk from super block u on, are the whole.
    'supers: for u in begin..end {
        if count <= slot {
            break 'supers;
        }
        let blocks = sizes.blocks(u);
        let elements = sizes.block_elements(u);
        let Some(super_at) = array.enter_super(u)? else {
            slot += blocks * elements;
            continue 'supers;
        };
        let mut block_ahead = None;
        // What is counted, and the walk from its data block k on, are the whole.
        'blocks: for k in 0..blocks {
            if u < directs {
                if count <= slot {
                    break 'supers;
                }
            }
            let row = BlockRow { array, u, super_at };
            let turn = row.enter_block_in_turn(k, block_ahead);
            block_ahead = turn.ahead;
            let Some(at) = turn.found? else {
                slot += elements;
                continue 'blocks;
            };
            if sizes.in_pages(u) {
                let pages = sizes.pages(u);
                let mut from = slot;
                // (The index block names no data block that is read by pages.)
                let page_row = PageRow {
                    array: array.array,
                    u,
                    super_at: super_at.unwrap(),
                    k,
                    at,
                };
                let mut page_ahead = None;
                // What is counted, and the walk from its page p on, are the whole.
                'pages: for p in 0..pages {
                    let turn = page_row.enter_page_in_turn(p, page_ahead);
                    page_ahead = turn.ahead;
                    let Some(pos) = turn.found? else {
                        from += page;
                        continue 'pages;
                    };
                    total += count_elements(file, pos, page, from, reader)?;
                    if count < from + page {
                        break 'pages;
                    }
                    from += page;
                }
            } else {
                let pos = at + extents.block_element_at(0);
                total += count_elements(file, pos, elements, slot, reader)?;
            }
            slot += elements;
        }
    }
    Ok(total)
}
