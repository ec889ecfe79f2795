// The lookup as it is called from C: on numbers and bytes, with the header read first.
ghost use Rattle.std.specs.Prelude.{◌≡◌, ℕ};
ghost use Rattle.shapes.specs.Shapes.{shape_of};
ghost use Rattle.calls.specs.Values.{call_from};
ghost use Rattle.ea_calls.specs.Call.{call_index, list_at};
ghost use Rattle.elements.specs.Values.{found_of};
ghost use Rattle.walked_index.specs.Answered.{Answered, Agreed};
ghost use Rattle.ea_lookup.specs.Call.{lookup_at};

use calls::Call;
use ea_index::ArrayIndex;
use index::Entry;
use refusal::Refusal;

// Reads the header at a call's address, the shapes of its dataset and a corner, and looks up the chunk at the corner.
pub fn lookup_at(call: &Call, corner: &[u8]) -> Result<Option<Entry>, Refusal>
    ensures { let given = call_from call.now in
        let at = shape_of call.now.rank corner.now in
        (result ≡ found_of (lookup_at given at))
        × Answered (lookup_at given at) (call_index given) at result
        × ((room : ℕ) → Agreed (list_at given room) given.grid at result) }
{
    walked_index::call::lookup_at::<ArrayIndex>(call, corner)
}
