#![tactic(auto)]
// Lists the chunks of a dataset: reads a line that says what to list, and the file behind it, and prints a line for
// each record and their number, or why there are none.
mod answer;

use answer::{LIST_BYTES, NUMBER_BYTES, OUT_BYTES, answer};
use std::io;
use std::io::Read;

// An input that fills this has a line or a file that is too long.
const INPUT_BYTES: u64 = 65536;

fn main(rt: HostRuntime) -> io::Result<()> {
    let alloc = rt.alloc();
    let mut input = Vec::new(alloc);
    rt.reader().take(INPUT_BYTES).read_to_end(&mut input)?;
    let mut numbers = vec![in alloc; 0u8; NUMBER_BYTES]?;
    let mut list = vec![in alloc; 0u8; LIST_BYTES]?;
    let mut out = vec![in alloc; 0u8; OUT_BYTES]?;
    let end = answer(&mut out, &mut list, &mut numbers, &input);
    rt.write_all(&out[..end])
}
