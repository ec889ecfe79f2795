#![tactic(auto)]
// Any kind of index whose elements lie in a file: what list and lookup ask of it.
ghost use Rattle.std.specs.Prelude.{◌≡◌, ◌<◌, List, ℕ, Ok};
ghost use Rattle.refusal.specs.Refusals.{Checked};
ghost use Rattle.refusal.specs.Values.{counted_of};
ghost use Rattle.chunk_grid.specs.Grid.{Grid};
ghost use Rattle.element_form.specs.declared.Form.{Form as FormValue};
ghost use Rattle.index.specs.Index.{Rec, Listing};
ghost use Rattle.elements.specs.Elements.{Elements};
ghost use Rattle.elements.specs.Values.{elements_of, Reads};
ghost use Rattle.located.specs.Located.{Located};
ghost use Rattle.located.specs.Values.{RunOf};
ghost use Rattle.located.proofs.Walks.{Right};
ghost use Rattle.walked_index.specs.Walked.{WalkedTo};
ghost use Rattle.walked_index.specs.PathEnds.{PathEnds};

use element_form::Form;
use elements::ElementReader;
use located::Run;
use refusal::Refusal;

pub mod call;
pub mod list;
pub mod lookup;

// An index: its walk tests and counts, its runs are read again without a test, and a path is tested for one slot.
pub trait WalkedIndex: Copy {
    // The form of its elements, the number of its slots that are in use, the tests before a lookup's path, its walk,
    // and where its elements lie: the last three of the bytes of a file, the last two of elements that are read of it.
    ghost form: { Self → FormValue };

    ghost count: { Self → ℕ };

    ghost entry: { Self → List ℕ → Checked };

    ghost walk: { Self → List ℕ → Elements → Listing };

    ghost located: { Self → List ℕ → Elements → Located };

    fn element_form(self) -> Form
        ensures { result ≡ form self };

    fn slot_count(self) -> u64
        ensures { result ≡ count self };

    fn test_entry(self, file: &[u8]) -> Result<(), Refusal>
        ensures { result ≡ entry self file.now };

    // Tests its structures in slot order, and counts the records of its elements.
    fn count_walk(self, file: &[u8], reader: &ElementReader) -> Result<u64, Refusal>
        requires { (form self ≡ reader.now.form) × (count self ≡ reader.now.count) }
        ensures { (grid : Grid) (n : ℕ) → Reads reader.now grid n
            → result ≡ counted_of (walk self file.now (elements_of file.now reader.now grid n)) };

    // The run that a slot begins, where a walk that comes to it is accepted.
    fn run_of(self, file: &[u8], slot: u64) -> Run
        requires { WalkedTo (walk self file.now) (form self) (count self) file.now slot }
        ensures { (e : Elements) → e.file ≡ file.now → form self ≡ e.form
            → RunOf (located self file.now e) slot result };

    // The path to a slot in use.
    fn path_of(self, file: &[u8], slot: u64) -> Result<Option<u64>, Refusal>
        requires { (entry self file.now ≡ Ok tt) × (slot < count self) }
        ensures { PathEnds (located self file.now) file.now (form self) slot result };

    // Laws: where its elements lie it has the elements that are read; an accepted walk is right, and its entry is
    // tested.
    ghost elements_are: { (i : Self) (f : List ℕ) (e : Elements) → (located i f e).elements ≡ e };

    ghost walk_right: { (i : Self) (f : List ℕ) (e : Elements) → form i ≡ e.form → count i ≡ e.count
        → (l : List Rec) → walk i f e ≡ Ok l → Right (located i f e) 0 l };

    ghost walk_enters: { (i : Self) (f : List ℕ) (e : Elements) (l : List Rec) → walk i f e ≡ Ok l
        → entry i f ≡ Ok tt };
}
