// Words and numbers of a text.
ghost use Rattle.std.specs.Prelude.{◌≡◌, ◌≤◌, length};
ghost use Rattle.questions.specs.Text.{before, number_of};

// The part up to the first b, or all where there is none.
pub fn until(s: &[u8], b: u8) -> &[u8]
    ensures result_value { result.now ≡ before b s.now }
    ensures result_in_bounds { length result.now ≤ length s.now }
{
    match s.iter().position(|x| *x == b) {
        Some(end) => &s[..end],
        None => s,
    }
}

// The number that a word's digits write, where it is `largest` at most.
pub fn parse_number(word: &[u8], largest: u64) -> Option<u64>
    ensures { result ≡ number_of largest word.now }
{
    if word.is_empty() {
        return None;
    }
    let mut value = 0u64;
    // `value` is the value of the bytes so far, which are digits.
    for b in word {
        if !b.is_ascii_digit() {
            return None;
        }
        value = value.checked_mul(10)?.checked_add((*b - b'0') as u64)?;
    }
    if largest < value { None } else { Some(value) }
}
