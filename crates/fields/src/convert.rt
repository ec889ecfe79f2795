// Numbers that may not fit 32 bits.
ghost use Rattle.std.specs.Prelude.{◌≡◌};
ghost use Rattle.fields.specs.Values.{narrowed};

use refusal::Refusal;

// The value in 32 bits: over 2^32 - 1 it is 30.
pub fn u32_from(value: u64) -> Result<u32, Refusal>
    ensures { result ≡ narrowed value }
{
    u32::try_from(value).map_err(|_| Refusal::Size(value))
}
