// What the elements that are left of a run begin with.
ghost use Rattle.std.specs.Prelude.{◌+◌, ◌*◌, ◌<◌, ◌≤◌, length};
ghost use Rattle.element_form.specs.Form.{stride};
ghost use Rattle.element_runs.specs.Steps.{StepOf};

use crate::defined::undefined_run;
use chunk_slots::{Line, line_from};
use elements::SizedReader;
use refusal::Refusal;

// So many elements that hold no chunk, or those whose slots lie in a line in the present extents.
#[derive(Clone, Copy)]
pub enum Step {
    Gap(u64),
    Line(Line),
}

// What n elements from pos on begin with, whose slots, from `slot` on, lie below the published count. (The array is
// lent for the offsets of a line's first slot.)
#[inline(always)]
pub fn step_from(
    offsets: &mut [u64; 32],
    file: &[u8],
    pos: usize,
    n: u64,
    slot: u64,
    sized: &SizedReader,
) -> Result<Step, Refusal>
    requires { (0 < n) × (pos + n * stride sized.now.reader.form ≤ length file.now)
        × (slot + n ≤ sized.now.reader.count) }
    ensures { StepOf file.now sized.now.reader offsets.new pos n slot result }
{
    let form = sized.reader.form;
    let gap = undefined_run(file, pos, n, form.stride() as usize, form.offset_size);
    if 0 < gap {
        return Ok(Step::Gap(gap));
    }
    if sized.reader.reach(offsets, slot)? {
        Ok(Step::Line(line_from(slot, sized.reader.numbering)))
    } else {
        Ok(Step::Gap(1))
    }
}
