// The bits that say which pages are set.
ghost use Rattle.std.specs.Prelude.{◌≡◌, ◌+◌, ◌<◌, length};
ghost use Rattle.structures.specs.PageBits.{bit_byte, page_bit};

// Whether a bit is set in the page bits of s that begin at pos.
pub fn page_is_initialized(s: &[u8], pos: usize, bit: usize) -> bool
    requires { pos + bit_byte bit < length s.now }
    ensures { result ≡ page_bit s.now pos bit }
{
    s[pos + bit / 8] & (0x80 >> (bit % 8)) != 0
}
