#![tactic(auto)]
// An extensible array as an index that is listed and looked up.
ghost use Rattle.std.specs.Prelude.{◌≡◌, ℕ, refl, Err, Ok};
ghost use Rattle.checksum.specs.Lookup3.{lookup3};
ghost use Rattle.chunk_grid.specs.Grid.{Grid};
ghost use Rattle.elements.specs.Values.{elements_of};
ghost use Rattle.ea_header.specs.Header.{header_at, header_test};
ghost use Rattle.ea_geometry.specs.Extents.{form_of};
ghost use Rattle.ea_blocks.specs.Values.{array_of};
ghost use Rattle.ea_blocks.specs.Structures.{array_test};
ghost use Rattle.ea_walk.specs.Walk.{located as array_located, walk as array_walk};
ghost use Rattle.ea_walk.proofs.Walks.{walk_right, walk_enters};
ghost use Rattle.ea_index.specs.Values.{indexed};

use ea_blocks::ExtensibleArray;
use ea_blocks::tests::test_array;
use ea_header::ExtensibleArrayHeader;
use element_form::Form;
use elements::ElementReader;
use located::Run;
use refusal::Refusal;
use walked_index::WalkedIndex;
use walked_index::call::HeadedIndex;

mod in_block;
pub mod paths;
pub mod runs;

// An array, and how many of its slots are in use.
#[derive(Clone, Copy)]
pub struct ArrayIndex {
    pub array: ExtensibleArray,
    pub count: u64,
}

impl ArrayIndex {
    // The array of a header, whose addresses have this size.
    pub fn from_header(header: ExtensibleArrayHeader, offset_size: u64) -> Self
        ensures { result ≡ indexed header offset_size }
    {
        Self {
            array: ExtensibleArray::from_header(header, offset_size),
            count: header.num_elements,
        }
    }
}

impl WalkedIndex for ArrayIndex {
    ghost form = { λ i. form_of i.array.geometry.parameters i.array.geometry.offset_size };

    ghost count = { λ i. i.count };

    ghost entry = { λ i f. array_test (array_of f i.array) };

    ghost walk = { λ i f e. array_walk (array_of f i.array) e };

    ghost located = { λ i f e. array_located (array_of f i.array) e };

    fn element_form(self) -> Form {
        self.array.geometry.form()
    }

    fn slot_count(self) -> u64 {
        self.count
    }

    fn test_entry(self, file: &[u8]) -> Result<(), Refusal> {
        test_array(file, self.array)
    }

    fn count_walk(self, file: &[u8], reader: &ElementReader) -> Result<u64, Refusal> {
        ea_count::walk::count_walk(file, self.array, reader)
    }

    fn run_of(self, file: &[u8], slot: u64) -> Run {
        runs::run_of(self.array.in_file(file), slot)
    }

    fn path_of(self, file: &[u8], slot: u64) -> Result<Option<u64>, Refusal> {
        paths::path_of(file, self.array, slot)
    }

    ghost elements_are = { λ i f e. refl };

    ghost walk_right = { λ i f e form count l h. walk_right (array_of f i.array) e form l h };

    ghost walk_enters = { λ i f e l h. walk_enters (array_of f i.array) e l h };
}

impl HeadedIndex for ArrayIndex {
    ghost header_test = { header_test lookup3 };

    ghost headed = { λ f address o l. indexed (header_at f address o l) o };

    #[tactic(auto, using(refusal::proofs::Outcomes::value_is, refusal::proofs::Outcomes::refused_is))]
    fn read(
        file: &[u8],
        address: u64,
        offset_size: u64,
        length_size: u64,
    ) -> Result<Self, Refusal> {
        let header = ExtensibleArrayHeader::parse(file, address, offset_size, length_size)?;
        Ok(Self::from_header(header, offset_size))
    }
}
