#![tactic(auto)]
// The text of a list and of a refusal, put into a buffer. (Not into a String: these calls can't fail, and memory can.)
// The program `eals` prints it.
ghost use Rattle.std.specs.Prelude.{◌≡◌, ◌∷◌, ◌+◌, ◌*◌, ◌≤◌, length, drop};
ghost use Rattle.shapes.specs.Shapes.{numbers_in};
ghost use Rattle.records.specs.Records.{record_length, record_in, records_in};
ghost use Rattle.list_text.specs.Printed.{Put, decimal, spaced, record_line, record_lines, list_text, refusal_text};

use fields::bytes::{read_u32_le, read_u64_le};
use refusal::Refusal;

// Stores a text from `at` on, and answers where it ends.
#[tactic(auto, using(crate::proofs::Puts::text_put))]
pub fn put_text(out: &mut [u8], at: usize, text: &[u8]) -> usize
    requires { at + length text.now ≤ length out.old }
    ensures { Put out.old at text.now out.new result }
{
    let end = at + text.len();
    out[at..end].copy_from_slice(text);
    end
}

// Stores a number's digits at the end of a buffer, and answers where they begin.
fn store_digits(digits: &mut [u8; 20], n: u64) -> usize
    ensures in_bounds { result ≤ 20 }
    ensures digits { drop result digits.new ≡ decimal n }
{
    let mut rest = n;
    // The digits of n are those of `rest`, and behind them those that are stored from `first` on.
    for first in (0..20).rev() {
        digits[first] = b'0' + (rest % 10) as u8;
        rest /= 10;
        if rest == 0 {
            return first;
        }
    }
    0
}

// A text that is put into a lent buffer: its bytes stand before `end`.
#[derive(Drop)]
struct Text<'a> {
    out: &'a mut [u8],
    end: usize,
    ghost within: { end ≤ length out.now },
}

impl Text<'_> {
    ghost use Rattle.list_text.specs.Appended.{Appended, room};

    // Puts a text behind what is put.
    fn put(&mut self, text: &[u8])
        requires { length text.now ≤ room self.old }
        ensures appended { Appended self.old text.now self.new }
        ensures room { room self.old ≡ room self.new + length text.now }
    {
        self.end = put_text(self.out, self.end, text);
    }

    // Puts a number's digits.
    fn put_number(&mut self, n: u64)
        requires { 20 ≤ room self.old }
        ensures appended { Appended self.old (decimal n) self.new }
        ensures room { room self.old ≤ room self.new + 20 }
    {
        let mut digits = [0u8; 20];
        let first = store_digits(&mut digits, n);
        self.put(&digits[first..]);
    }

    // The same, behind a space.
    fn put_spaced(&mut self, n: u64)
        requires { 21 ≤ room self.old }
        ensures appended { Appended self.old (32 ∷ decimal n) self.new }
        ensures room { room self.old ≤ room self.new + 21 }
    {
        self.put(b" ");
        self.put_number(n);
    }

    // Puts n numbers of 8 bytes each, which a list holds from `from` on, each behind a space.
    fn put_offsets(&mut self, list: &[u8], from: usize, n: usize)
        requires { (from + 8 * n ≤ length list.now) × (21 * n ≤ room self.old) }
        ensures appended { Appended self.old (spaced (numbers_in n (drop from list.now))) self.new }
        ensures room { room self.old ≤ room self.new + 21 * n }
    {
        // The numbers in front of `number` are put.
        for number in list[from..from + 8 * n].chunks_exact(8) {
            self.put_spaced(read_u64_le(number, 0));
        }
    }

    // Puts the line of the record that a list holds from `from` on.
    #[tactic(auto, unfolding(records::specs::Records::record_length))]
    fn put_record(&mut self, list: &[u8], from: usize, rank: usize)
        requires { (from + record_length rank ≤ length list.now) × (4 * record_length rank ≤ room self.old) }
        ensures appended { Appended self.old (record_line (record_in rank (drop from list.now))) self.new }
        ensures room { room self.old ≤ room self.new + 4 * record_length rank }
    {
        self.put_number(read_u64_le(list, from));
        self.put_spaced(read_u32_le(list, from + 8) as u64);
        self.put_spaced(read_u32_le(list, from + 12) as u64);
        self.put_offsets(list, from + 16, rank);
        self.put(b"\n");
    }

    // Puts the lines of the first `count` records of a list.
    #[tactic(auto, using(crate::proofs::Lines::room_on), unfolding(records::specs::Records::record_length))]
    fn put_records(&mut self, list: &[u8], count: usize, rank: usize)
        requires { (count * record_length rank ≤ length list.now) × (4 * length list.now ≤ room self.old) }
        ensures appended { Appended self.old (record_lines (records_in rank count list.now)) self.new }
        ensures room { room self.old ≤ room self.new + 4 * length list.now }
    {
        // The lines of the first i records are put.
        for i in 0..count {
            self.put_record(list, i * (16 + 8 * rank), rank);
        }
    }
}

// The text of a list of `count` records, from the start of out on; answers where it ends.
pub fn put_list(out: &mut [u8], list: &[u8], count: usize, rank: usize) -> usize
    requires { (count * record_length rank ≤ length list.now) × (4 * length list.now + 29 ≤ length out.old) }
    ensures put { Put out.old 0 (list_text (records_in rank count list.now))
        out.new result }
    ensures upper_bound { result ≤ 4 * length list.now + 29 }
{
    let mut text = Text { out, end: 0 };
    text.put_records(list, count, rank);
    text.put(b"records");
    text.put_spaced(count as u64);
    text.put(b"\n");
    text.end
}

// The text of a refusal.
pub fn put_refusal(out: &mut [u8], refusal: Refusal) -> usize
    requires { 71 ≤ length out.old }
    ensures put { Put out.old 0 (refusal_text refusal) out.new result }
    ensures upper_bound { result ≤ 71 }
{
    let mut text = Text { out, end: 0 };
    text.put(b"refused");
    text.put_spaced(refusal.number());
    text.put_spaced(refusal.first());
    text.put_spaced(refusal.second());
    text.put(b"\n");
    text.end
}
