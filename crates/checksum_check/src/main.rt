#![tactic(auto)]
// Prints checksums of known bytes: lookup3.c's vectors with start value 0, every length from 1 to 40, and tests of a
// trailing checksum.
use std::io;

fn print_checksum(rt: &impl Print, s: &[u8]) -> io::Result<()> {
    println!(rt; "{:08x}", checksum::jenkins_lookup3(s))
}

// The checksum of every part of s that begins where s does, from 1 byte on.
fn print_prefixes(rt: &impl Print, s: &[u8]) -> io::Result<()> {
    for n in 0..s.len() {
        print_checksum(rt, &s[..n + 1])?;
    }
    Ok(())
}

fn print_test(rt: &impl Print, block: &[u8]) -> io::Result<()> {
    let (number, stored, computed) = match checksum::verify_trailing(block) {
        Ok(()) => (0, 0, 0),
        Err(r) => (r.number(), r.first(), r.second()),
    };
    println!(rt;
        "{number} {stored:08x} {computed:08x} body {}",
        checksum::body(block).len()
    )
}

fn main(rt: HostRuntime) -> io::Result<()> {
    print_checksum(&rt, b"")?;
    print_checksum(&rt, b"Four score and seven years ago")?;
    print_prefixes(&rt, b"abcdefghijklmnopqrstuvwxyz0123456789ABCD")?;
    print_test(&rt, b"\xef\xbe\xad\xde")?;
    print_test(&rt, b"Four score and seven years ago\x51\x05\x77\x17")?;
    print_test(&rt, b"Four score and seven years ago\x51\x05\x77\x18")?;
    print_test(&rt, b"abc")?;
    print_test(&rt, b"")
}
