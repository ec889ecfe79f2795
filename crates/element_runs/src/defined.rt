// Runs of elements by their addresses alone. (Nothing else is looked at here: most elements of a large index may be
// undefined.)
ghost use Rattle.std.specs.Prelude.{◌≡◌, true, not, ◌+◌, ◌*◌, ◌≤◌, length};
ghost use Rattle.fields.specs.Fields.{is_width, undefined_at};
ghost use Rattle.element_runs.specs.Defined.{undefined_run, defined_count};

use fields::address::is_undefined_addr;
use fields::bytes::read_address;

// Whether the element at pos is defined.
#[tactic(auto, using(elements::proofs::Sized::tested))]
fn is_defined(file: &[u8], pos: usize, width: u64) -> bool
    requires { (is_width width ≡ true) × (pos + width ≤ length file.now) }
    ensures { result ≡ not (undefined_at file.now pos width) }
{
    !is_undefined_addr(read_address(file, pos, width as usize), width)
}

// How many of n elements from pos on are undefined in front of the first that is defined.
#[inline(never)]
pub fn undefined_run(file: &[u8], pos: usize, n: u64, stride: usize, width: u64) -> u64
    requires { (is_width width ≡ true) × (width ≤ stride) × (pos + n * stride ≤ length file.now) }
    ensures { (result ≡ undefined_run file.now pos n stride width) × (result ≤ n) }
{
    (0..n)
        .find(
            |&i|
                requires { (is_width width ≡ true) × (pos + i * stride + width ≤ length file.now) }
            { is_defined(file, pos + i as usize * stride, width) },
        )
        .unwrap_or(n)
}

// How many of n elements from pos on are defined.
#[tactic(auto, using(crate::proofs::DefinedRuns::place_lies))]
pub fn count_defined(file: &[u8], pos: usize, n: u64, stride: usize, width: u64) -> u64
    requires { (is_width width ≡ true) × (width ≤ stride) × (pos + n * stride ≤ length file.now) }
    ensures { result ≡ defined_count file.now pos n stride width }
{
    let mut count = 0;
    // Of the first i elements `count` are defined. (With `filter` and `count`, which the compiler doesn't make vectors
    // of, a whole list took 1.2 times as long.)
    for i in 0..n {
        if is_defined(file, pos + i as usize * stride, width) {
            count += 1;
        }
    }
    count
}
