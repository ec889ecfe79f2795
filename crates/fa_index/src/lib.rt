#![tactic(auto)]
// A fixed array as an index that is listed and looked up.
ghost use Rattle.std.specs.Prelude.{◌≡◌, refl};
ghost use Rattle.std.proofs.Common.{sym};
ghost use Rattle.checksum.specs.Lookup3.{lookup3};
ghost use Rattle.fa_header.specs.Header.{fixed_header_at, fixed_header_test};
ghost use Rattle.fa_header.specs.Served.{fixed_served_test};
ghost use Rattle.fa_geometry.specs.Layout.{fixed_form};
ghost use Rattle.fa_blocks.specs.Values.{fixed_of};
ghost use Rattle.fa_walk.specs.Walk.{fixed_located, fixed_walk};
ghost use Rattle.fa_walk.proofs.Walks.{walk_right, walk-served};
ghost use Rattle.fa_index.specs.Given.{indexed};

use element_form::Form;
use elements::ElementReader;
use fa_blocks::ArrayInFile;
use fa_geometry::{FixedArray, Layout};
use fa_header::FixedArrayHeader;
use located::Run;
use refusal::Refusal;
use walked_index::WalkedIndex;
use walked_index::call::HeadedIndex;

pub mod count;
pub mod paths;
pub mod runs;

// An array, whose entries are all in use.
#[derive(Clone, Copy)]
pub struct FixedIndex {
    pub array: FixedArray,
}

impl FixedIndex {
    // The array of a header, whose addresses have this size.
    pub fn from_header(header: FixedArrayHeader, offset_size: u64) -> Self
        ensures { result ≡ indexed header offset_size }
    {
        Self {
            array: FixedArray {
                header,
                offset_size,
            },
        }
    }
}

impl WalkedIndex for FixedIndex {
    ghost form = { λ i. fixed_form i.array.header i.array.offset_size };

    ghost count = { λ i. i.array.header.num_elements };

    ghost entry = { λ i f. fixed_served_test i.array.header };

    ghost walk = { λ i f e. fixed_walk (fixed_of f i.array) e };

    ghost located = { λ i f e. fixed_located (fixed_of f i.array) e };

    fn element_form(self) -> Form {
        self.array.form()
    }

    fn slot_count(self) -> u64 {
        self.array.header.num_elements
    }

    fn test_entry(self, _file: &[u8]) -> Result<(), Refusal> {
        self.array.header.served_test()
    }

    fn count_walk(self, file: &[u8], reader: &ElementReader) -> Result<u64, Refusal> {
        count::count_walk(file, self.array, reader)
    }

    #[tactic(auto, using(crate::proofs::Walked::walked_tested))]
    fn run_of(self, file: &[u8], slot: u64) -> Run {
        let layout = Layout { array: self.array };
        runs::run_of(ArrayInFile { file, layout }, slot)
    }

    #[tactic(auto, using(fa_header::proofs::Served::tested_serves))]
    fn path_of(self, file: &[u8], slot: u64) -> Result<Option<u64>, Refusal> {
        let layout = Layout { array: self.array };
        paths::path_of(ArrayInFile { file, layout }, slot)
    }

    ghost elements_are = { λ i f e. refl };

    ghost walk_right = { λ i f e form count l h. walk_right (fixed_of f i.array) e form (sym count) l h };

    ghost walk_enters = { λ i f e l h. walk-served (fixed_of f i.array) e l h };
}

impl HeadedIndex for FixedIndex {
    ghost header_test = { fixed_header_test lookup3 };

    ghost headed = { λ f address o l. indexed (fixed_header_at f address o l) o };

    #[tactic(auto, using(refusal::proofs::Outcomes::value_is, refusal::proofs::Outcomes::refused_is))]
    fn read(
        file: &[u8],
        address: u64,
        offset_size: u64,
        length_size: u64,
    ) -> Result<Self, Refusal> {
        let header = FixedArrayHeader::parse(file, address, offset_size, length_size)?;
        Ok(Self::from_header(header, offset_size))
    }
}
