#![tactic(auto)]
// HDF5's metadata checksum: Bob Jenkins' lookup3, hashlittle with start value 0.
ghost use Rattle.std.specs.Prelude.{◌≡◌, ◌-◌, ◌/◌, ◌<◌, ◌≤◌, min, length};
ghost use Rattle.checksum.specs.Lookup3.{mix_line, mixed, final_line, final_mixed, added};
ghost use Rattle.checksum.specs.Lookup3.{seed, seeded, blocks, hashlittle, lookup3};
ghost use Rattle.checksum.specs.Trailing.{body_of, trailing_test};

use fields::bytes::{read_u32_le, read_u32_le_padded};
use refusal::Refusal;

// The three words of the hash's state.
#[derive(Clone, Copy)]
pub struct Words {
    pub a: u32,
    pub b: u32,
    pub c: u32,
}

// What comes of two slices that are read side by side.
#[derive(Clone, Copy)]
pub struct Two<T> {
    pub first: T,
    pub second: T,
}

// What the tests of two structures answer.
pub type TwoChecked = Two<Result<(), Refusal>>;

// The checksum of s.
pub fn jenkins_lookup3(s: &[u8]) -> u32
    ensures { result ≡ lookup3 s.now }
{
    hashlittle(s, 0)
}

// Tests the checksum in the last 4 bytes of a structure, `block`, against the bytes before it.
pub fn verify_trailing(block: &[u8]) -> Result<(), Refusal>
    ensures { result ≡ trailing_test lookup3 block.now }
{
    compared(block, jenkins_lookup3(body(block)))
}

// Tests the checksums of two structures, side by side. (One hash is a chain of dependent steps: two take little
// longer than one.)
pub fn verify_trailing_two(one: &[u8], other: &[u8]) -> TwoChecked
    ensures { (result.first ≡ trailing_test lookup3 one.now)
        × (result.second ≡ trailing_test lookup3 other.now) }
{
    let computed = hashlittle_two(body(one), body(other), 0);
    Two {
        first: compared(one, computed.first),
        second: compared(other, computed.second),
    }
}

// The stored checksum of a structure against the one computed of its body.
fn compared(block: &[u8], sum: u32) -> Result<(), Refusal>
    requires { sum ≡ lookup3 (body_of block.now) }
    ensures { result ≡ trailing_test lookup3 block.now }
{
    if block.len() < 4 {
        return Err(Refusal::PastEnd(4, block.len() as u64));
    }
    let stored = read_u32_le(block, block.len() - 4);
    if stored == sum {
        Ok(())
    } else {
        Err(Refusal::Checksum(stored as u64, sum as u64))
    }
}

// The part of a structure before its checksum: empty under 4 bytes.
pub fn body(block: &[u8]) -> &[u8]
    ensures { result.now ≡ body_of block.now }
{
    if block.len() < 4 {
        return &block[..0];
    }
    let end = block.len() - 4;
    &block[..end]
}

// One line of mix. The words come back under the names that they have in the next line.
fn mix_line(w: Words, k: u32) -> Words
    requires { (0 < k) × (k < 32) }
    ensures { result ≡ mix_line k w }
{
    let a = w.a.wrapping_sub(w.c) ^ w.c.rotate_left(k);
    let c = w.c.wrapping_add(w.b);
    Words { a: w.b, b: c, c: a }
}

fn mix(w: Words) -> Words
    ensures { result ≡ mixed w }
{
    let v = mix_line(mix_line(mix_line(w, 4), 6), 8);
    mix_line(mix_line(mix_line(v, 16), 19), 4)
}

// One line of final. The words come back under the names that they have in the next line.
fn final_line(w: Words, k: u32) -> Words
    requires { (0 < k) × (k < 32) }
    ensures { result ≡ final_line k w }
{
    let c = (w.c ^ w.b).wrapping_sub(w.b.rotate_left(k));
    Words {
        a: w.b,
        b: c,
        c: w.a,
    }
}

fn final_mix(w: Words) -> Words
    ensures { result ≡ final_mixed w }
{
    let v = final_line(final_line(final_line(final_line(w, 14), 11), 25), 16);
    let u = final_line(final_line(final_line(v, 4), 14), 24);
    Words {
        a: u.c,
        b: u.a,
        c: u.b,
    }
}

// Adds a block, the first 12 bytes of s.
#[tactic(auto, unfolding(crate::specs::Lookup3::added))]
fn add_block(w: Words, s: &[u8]) -> Words
    requires { 12 ≤ length s.now }
    ensures { result ≡ added w s.now }
{
    let a = w.a.wrapping_add(read_u32_le(s, 0));
    let b = w.b.wrapping_add(read_u32_le(s, 4));
    let c = w.c.wrapping_add(read_u32_le(s, 8));
    Words { a, b, c }
}

// Adds the tail, the last 1 to 12 bytes: third word, second word, first word. (Apart from add_block: with this one for
// the blocks too, 8,192 bytes took 1.11 times as long, 150 bytes 1.04 times.)
#[tactic(auto, unfolding(crate::specs::Lookup3::added))]
fn add_tail(w: Words, s: &[u8]) -> Words
    ensures { result ≡ added w s.now }
{
    let c = w.c.wrapping_add(read_u32_le_padded(s, 8));
    let b = w.b.wrapping_add(read_u32_le_padded(s, 4));
    let a = w.a.wrapping_add(read_u32_le_padded(s, 0));
    Words { a, b, c }
}

// The words before the first block of n bytes.
fn start(n: usize, initval: u32) -> Words
    ensures { result ≡ seeded (seed n initval) }
{
    let x = 0xdead_beef_u32
        .wrapping_add((n % 0x1_0000_0000) as u32)
        .wrapping_add(initval);
    Words { a: x, b: x, c: x }
}

// The hash from the words so far and the bytes that are left.
fn hash_from(from: Words, s: &[u8]) -> u32
    requires { 0 < length s.now }
    ensures { result ≡ blocks ((length s.now - 1) / 12) from s.now }
{
    let n = s.len();
    let mut w = from;
    let mut at = 0;
    // The blocks before `at` are in w, and at least one byte is left: the rest, from w, gives the hash.
    // (By index: with chunks_exact it took 1.03 to 1.05 times as long, for 12 bytes 1.14 times.)
    while 12 < n - at {
        w = mix(add_block(w, &s[at..]));
        at += 12;
    }
    let u = final_mix(add_tail(w, &s[at..]));
    u.c
}

fn hashlittle(s: &[u8], initval: u32) -> u32
    ensures { result ≡ hashlittle s.now initval }
{
    let w = start(s.len(), initval);
    if s.len() == 0 {
        return w.c;
    }
    hash_from(w, s)
}

// The hashes of s and t, block by block in turn while both have more than 12 bytes left.
fn hashlittle_two(s: &[u8], t: &[u8], initval: u32) -> Two<u32>
    ensures { (result.first ≡ hashlittle s.now initval)
        × (result.second ≡ hashlittle t.now initval) }
{
    let both = s.len().min(t.len());
    if both == 0 {
        return Two {
            first: hashlittle(s, initval),
            second: hashlittle(t, initval),
        };
    }
    // All blocks but the last of the shorter slice, and as many of the other.
    let end = (both - 1) / 12 * 12;
    let (s_blocks, s_rest) = s.split_at(end);
    let (t_blocks, t_rest) = t.split_at(end);
    let mut v = start(s.len(), initval);
    let mut w = start(t.len(), initval);
    // The blocks of s before `one` are in v, those of t before `other` in w.
    for (one, other) in s_blocks.chunks_exact(12).zip(t_blocks.chunks_exact(12)) {
        v = mix(add_block(v, one));
        w = mix(add_block(w, other));
    }
    Two {
        first: hash_from(v, s_rest),
        second: hash_from(w, t_rest),
    }
}
