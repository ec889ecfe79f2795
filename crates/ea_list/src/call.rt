// The list as it is called from C: on numbers and bytes, with the header read first.
ghost use Rattle.std.specs.Prelude.{◌≡◌, ℕ, ◌/◌, ◌<◌, length, Ok};
ghost use Rattle.refusal.specs.Values.{counted_of};
ghost use Rattle.index.specs.ExactList.{ExactList};
ghost use Rattle.records.specs.Records.{record_length, list_content, records_in};
ghost use Rattle.calls.specs.Values.{call_from};
ghost use Rattle.ea_calls.specs.Call.{call_index, list_at};

use calls::Call;
use ea_index::ArrayIndex;
use refusal::Refusal;

// Reads the header at a call's address and the shapes of its dataset, and lists the dataset's chunks.
pub fn list_at(call: &Call, list: &mut [u8]) -> Result<u64, Refusal>
    ensures { let given = call_from call.now in
        let answer = list_at given (length list.old / record_length call.now.rank) in
        (result ≡ counted_of answer)
        × (list.new ≡ list_content answer list.old)
        × ((n : ℕ) → result ≡ Ok n → 0 < call.now.rank
        → ExactList (call_index given) (records_in call.now.rank n list.new) n) }
{
    walked_index::call::list_at::<ArrayIndex>(call, list)
}
