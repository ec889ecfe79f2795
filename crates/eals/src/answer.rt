// What the program answers.
ghost use Rattle.std.specs.Prelude.{◌≡◌, ◌+◌, ◌*◌, ◌≤◌, length};
ghost use Rattle.io.specs.Counts.{IsPrefixLen};
ghost use Rattle.refusal.specs.Values.{counted_of};
ghost use Rattle.records.specs.Records.{record_length, list_content};
ghost use Rattle.list_text.specs.Printed.{Put};
ghost use Rattle.eals.specs.Program.{listing_of, counted_text, records_counted, program_text};

use calls::Call;
use ea_list::call::list_at;
use list_text::{put_list, put_refusal, put_text};
use questions::{Question, file_of, parse};
use refusal::Refusal;

// A line of 4,095 bytes has 4,096 words at most, and their numbers have 8 bytes each.
pub const NUMBER_BYTES: usize = 32768;

pub const LIST_BYTES: usize = 65536;

// The text of a list has 4 bytes at most for each of the list's, and 29 for the count.
pub const OUT_BYTES: usize = 4 * LIST_BYTES + 29;

// Lists the chunks that a question asks for.
fn list_chunks(
    list: &mut [u8],
    numbers: &[u8],
    file: &[u8],
    question: Question,
) -> Result<u64, Refusal>
    requires { 48 + 24 * question.rank ≤ length numbers.now }
    ensures value { result ≡ counted_of (listing_of question numbers.now file.now
        (length list.old)) }
    ensures list_after { list.new
        ≡ list_content (listing_of question numbers.now file.now (length list.old))
        list.old }
{
    let rank = question.rank as usize;
    let chunk_end = 48 + 8 * rank;
    let present_end = 48 + 16 * rank;
    let maximum_end = 48 + 24 * rank;
    let call = Call {
        file,
        offset_size: question.offset_size,
        length_size: question.length_size,
        address: question.address,
        element_bytes: question.element_bytes,
        order: question.order,
        rank: question.rank,
        chunk: &numbers[48..chunk_end],
        present: &numbers[chunk_end..present_end],
        has_maximum: 1,
        maximum: &numbers[present_end..maximum_end],
    };
    list_at(&call, list)
}

// Puts the text of an answer into out, and answers where it ends.
fn put_counted(out: &mut [u8], list: &[u8], counted: Result<u64, Refusal>, rank: usize) -> usize
    requires { (records_counted counted * record_length rank ≤ length list.now) × (length list.now ≡ 65536)
        × (262173 ≤ length out.old) }
    ensures put { Put out.old 0 (counted_text rank counted list.now) out.new result }
    ensures upper_bound { result ≤ length out.old }
{
    match counted {
        Ok(n) => put_list(out, list, n as usize, rank),
        Err(r) => put_refusal(out, r),
    }
}

// Puts what the program prints of an input into out, and answers where it ends.
pub fn answer(out: &mut [u8], list: &mut [u8], numbers: &mut [u8], input: &[u8]) -> usize
    requires { (length list.old ≡ 65536) × (32768 ≤ length numbers.old) × (262173 ≤ length out.old) }
    ensures put { Put out.old 0
        (program_text input.now numbers.old list.old) out.new result }
    ensures prefix_len { IsPrefixLen result out.new }
{
    let Some(question) = parse(numbers, input) else {
        return put_text(out, 0, b"unreadable\n");
    };
    let counted = list_chunks(list, numbers, file_of(input), question);
    put_counted(out, list, counted, question.rank as usize)
}
