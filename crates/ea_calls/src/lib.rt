#![tactic(auto)]
// What a call from C is given of an extensible array; what it is answered is defined in specs/.
ghost use Rattle.std.specs.Prelude.{◌≡◌, Ok};
ghost use Rattle.refusal.specs.Outcome.{◌yields◌};
ghost use Rattle.refusal.specs.Refusals.{◌then◌};
ghost use Rattle.checksum.specs.Lookup3.{lookup3};
ghost use Rattle.ea_header.specs.Header.{header_at, header_test};
ghost use Rattle.calls.specs.Values.{call_from};

use calls::Call;
use ea_header::ExtensibleArrayHeader;
use refusal::Refusal;

// Reads the header at a call's address. All of its refusals come first, then that of the call's grid, which is tested
// before.
#[tactic(auto, using(crate::proofs::Tests::refused, crate::proofs::Tests::stopped, crate::proofs::Tests::passed))]
pub fn read_call(
    call: &Call,
    checked: Result<(), Refusal>,
) -> Result<ExtensibleArrayHeader, Refusal>
    ensures { let given = call_from call.now in
        result ≡ (header_test lookup3 given.file given.address given.offset_size given.length_size
        then checked
        yields Ok (header_at given.file given.address given.offset_size given.length_size)) }
{
    let offset_size = call.offset_size;
    let length_size = call.length_size;
    let header = ExtensibleArrayHeader::parse(call.file, call.address, offset_size, length_size)?;
    checked?;
    Ok(header)
}
