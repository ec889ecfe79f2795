// Stepping into structures that stand in a row: each is looked for, then tested, alone or ahead of its turn.
ghost use Rattle.std.specs.Prelude.{◌≡◌, ◌+◌, ◌<◌, ℕ, Option, Some, IfSome};
ghost use Rattle.refusal.specs.Refusals.{largest64, Checked};
ghost use Rattle.structures.specs.Entered.{TestedBy, entered};

use checksum::TwoChecked;
use refusal::Refusal;

// The result of a test whose turn hasn't come: that of page or data block number `index`.
#[derive(Clone, Copy)]
pub struct Ahead {
    pub index: u64,
    pub checked: Result<(), Refusal>,
}

// What the walk finds where it steps into a structure (none, or where it lies, tested), and the result of the next
// one's test where both were tested.
#[derive(Clone, Copy)]
pub struct Turn {
    pub found: Result<Option<u64>, Refusal>,
    pub ahead: Option<Ahead>,
}

// Structures of a file in a row, by their numbers: the data blocks of a super block, the pages of a data block.
pub trait Row: Copy {
    // Which numbers are in the row, so that each one's pointer or bit can be read; that the row lies where the file's
    // pointers say; where a number lies, if it is there; and its test.
    ghost inside: { Self → ℕ → Type 0 };

    ghost placed: { Self → Type 0 };

    ghost lies: { Self → ℕ → Option ℕ };

    ghost test: { Self → ℕ → Checked };

    // Where number i lies, if it is there.
    fn find(self, i: u64) -> Option<u64>
        requires { inside self i }
        ensures { placed self → result ≡ lies self i };

    // Tests number i, which lies at `at`.
    fn test_one(self, i: u64, at: u64) -> Result<(), Refusal>
        requires { inside self i }
        ensures { placed self → lies self i ≡ Some at → result ≡ test self i };

    // Tests number i, which lies at `at`, and number i + 1 side by side, where they make a pair.
    fn test_pair(self, i: u64, at: u64) -> Option<TwoChecked>
        requires { inside self i }
        ensures { IfSome result (λ two. i < largest64)
            × (placed self → lies self i ≡ Some at
            → IfSome result (λ two. (two.first ≡ test self i) × (two.second ≡ test self (i + 1)))) };
}

// Steps into number i of a row.
#[tactic(auto, unfolding(crate::specs::Entered::entered))]
pub fn enter<R: Row>(row: R, i: u64) -> Result<Option<u64>, Refusal>
    requires { R.inside row i }
    ensures { R.placed row → result ≡ entered (R.lies row i) (R.test row i) }
{
    let Some(at) = row.find(i) else {
        return Ok(None);
    };
    row.test_one(i, at)?;
    Ok(Some(at))
}

// The same in the turn of a walk along the row, by a result that an earlier turn has left.
#[tactic(auto, unfolding(crate::specs::Entered::entered))]
pub fn enter_in_turn<R: Row>(row: R, i: u64, ahead: Option<Ahead>) -> Turn
    requires { R.inside row i }
    ensures { R.placed row → TestedBy (R.test row) ahead
        → (result.found ≡ entered (R.lies row i) (R.test row i))
        × TestedBy (R.test row) result.ahead }
{
    let Some(at) = row.find(i) else {
        let found = Ok(None);
        return Turn { found, ahead };
    };
    let (checked, ahead) = test_in_turn(row, i, at, ahead);
    let found = checked.map(|()| Some(at));
    Turn { found, ahead }
}

// The result of the test of number i, which lies at `at`: the one that is known; made with the next one's, which is
// kept, where they make a pair; or made alone.
fn test_in_turn<R: Row>(
    row: R,
    i: u64,
    at: u64,
    ahead: Option<Ahead>,
) -> (Result<(), Refusal>, Option<Ahead>)
    requires { R.inside row i }
    ensures { R.placed row → R.lies row i ≡ Some at → TestedBy (R.test row) ahead
        → (result.0 ≡ R.test row i) × TestedBy (R.test row) result.1 }
{
    if let Some(known) = ahead {
        if known.index == i {
            return (known.checked, None);
        }
    }
    if let Some(two) = row.test_pair(i, at) {
        return keep_second(two, i + 1);
    }
    (row.test_one(i, at), None)
}

// The first of two results, and the second, kept for number `index`.
pub fn keep_second(two: TwoChecked, index: u64) -> (Result<(), Refusal>, Option<Ahead>)
    ensures { (result.0 ≡ two.first) × (result.1 ≡ Some (record { index = index; checked = two.second })) }
{
    let checked = two.second;
    (two.first, Some(Ahead { index, checked }))
}
