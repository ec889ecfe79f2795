#![tactic(auto)]
// What the programs share that only tests use: numbers and refusals printed, and numbers read from decimal digits.
ghost use Rattle.std.specs.Prelude.{◌≤◌, length};

use refusal::Refusal;
use std::io;

// Numbers, each behind a space.
pub fn print_numbers(rt: &impl Print, numbers: &[u64]) -> io::Result<()> {
    for n in numbers {
        print!(rt; " {n}")?;
    }
    Ok(())
}

// The first n numbers of an array.
pub fn print_first(rt: &impl Print, numbers: &[u64; 32], n: u64) -> io::Result<()> {
    if n <= 32 {
        print_numbers(rt, &numbers[..n as usize])?;
    }
    Ok(())
}

// A refusal behind other words of its line.
pub fn print_refusal(rt: &impl Print, r: Refusal) -> io::Result<()> {
    print!(rt; " refused {} {} {}", r.number(), r.first(), r.second())
}

// A refusal at the start of its line.
pub fn begin_with_refusal(rt: &impl Print, r: Refusal) -> io::Result<()> {
    print!(rt; "refused {} {} {}", r.number(), r.first(), r.second())
}

// A number, or a list's length, and where the input goes on.
#[derive(Clone, Copy)]
pub struct Item {
    pub value: u64,
    pub at: usize,
}

// The number with a digit more, as far as 64 bits hold it. Every byte from '0' on is taken for a digit.
fn with_digit(value: u64, b: u8) -> Option<u64> {
    if b < b'0' {
        return None;
    }
    value.checked_mul(10)?.checked_add((b % 16) as u64 % 10)
}

// The number of the digits from `from` on, as far as 64 bits hold it. One byte parts two numbers.
pub fn number(s: &[u8], from: usize) -> Item {
    let start = from.min(s.len());
    let mut value = 0u64;
    // `value` is the number of the digits between `start` and `start + i`. (Of a part: `skip` would step to it.)
    for (i, &b) in s[start..].iter().enumerate() {
        let Some(longer) = with_digit(value, b) else {
            return Item {
                value,
                at: start + i + 1,
            };
        };
        value = longer;
    }
    Item {
        value,
        at: from.max(s.len()),
    }
}

// A list of at most as many numbers as `out` has.
pub fn list(out: &mut [u64], s: &[u8], from: usize) -> Item
    ensures { result.value ≤ length out.old }
{
    let n = number(s, from);
    let count = n.value.min(out.len() as u64);
    let mut at = n.at;
    // The members before this one are read, and the input goes on at `at`.
    for member in &mut out[..count as usize] {
        let item = number(s, at);
        *member = item.value;
        at = item.at;
    }
    Item { value: count, at }
}
