#![tactic(auto)]
// The line in front of a file: what is asked of the file behind it. The program `eals` reads it.
ghost use Rattle.std.specs.Prelude.{◌≡◌, cond, ◌≤◌, length};
ghost use Rattle.questions.specs.Text.{words};
ghost use Rattle.questions.specs.Line.{order_number, word_number, no_question, with_number, line_question, line_stored};
ghost use Rattle.questions.specs.Line.{file_of, question_of, numbers_stored};

use fields::bytes::put_le;
use text::{parse_number, until};

mod text;

// What a line asks for, but for the lengths, which are stored beside it. (The order as C gives it.)
#[derive(Clone, Copy, Default)]
pub struct Question {
    pub offset_size: u64,
    pub length_size: u64,
    pub address: u64,
    pub element_bytes: u64,
    pub order: u64,
    pub rank: u64,
}

impl Question {
    // The question with the number of word i; lengths are no part of it.
    #[tactic(auto, unfolding(crate::specs::Line::with_number))]
    fn with(self, i: usize, n: u64) -> Self
        ensures { result ≡ with_number self i n }
    {
        match i {
            0 => Self {
                offset_size: n,
                ..self
            },
            1 => Self {
                length_size: n,
                ..self
            },
            2 => Self { address: n, ..self },
            3 => Self {
                element_bytes: n,
                ..self
            },
            4 => Self { order: n, ..self },
            5 => Self { rank: n, ..self },
            _ => self,
        }
    }
}

// The order that a word names.
#[tactic(auto, unfolding(crate::specs::Line::order_number, crate::specs::Text::is_only))]
fn parse_order(word: &[u8]) -> Option<u64>
    ensures { result ≡ order_number word.now }
{
    match word {
        b"R" => Some(0),
        b"U" => Some(1),
        _ => None,
    }
}

// The number of word i.
#[tactic(auto, unfolding(crate::specs::Line::word_number, crate::specs::Text::is_only))]
fn parse_word(word: &[u8], i: usize, rank: u64) -> Option<u64>
    ensures { result ≡ word_number rank i word.now }
{
    match i {
        0 | 1 => parse_number(word, 255),
        4 => parse_order(word),
        _ if 6 <= i && rank <= (i - 6) as u64 / 2 && matches!(word, b"*") => Some(u64::MAX),
        _ => parse_number(word, u64::MAX),
    }
}

// Reads a line, and stores its numbers up to the first word that has none.
fn parse_line(numbers: &mut [u8], line: &[u8]) -> Option<Question>
    requires { (length line.now ≤ 4095) × (32768 ≤ length numbers.old) }
    ensures value { result ≡ line_question (words line.now) }
    ensures numbers_after { numbers.new ≡ line_stored (words line.now) numbers.old }
{
    let mut question = Question::default();
    let mut count = 0;
    // The numbers of the first `count` words are stored, and in the question.
    for (i, word) in line.split(|b| *b == b' ').enumerate() {
        let n = parse_word(word, i, question.rank)?;
        put_le(numbers, 8 * i, 8, n);
        question = question.with(i, n);
        count = i + 1;
    }
    let rank = question.rank;
    if rank <= 4096 && count as u64 == 6 + 3 * rank {
        return Some(question);
    }
    None
}

// The file, which is what stands behind the line.
#[tactic(auto, unfolding(crate::specs::Line::file_of, crate::specs::Line::line_of))]
pub fn file_of(input: &[u8]) -> &[u8]
    ensures { result.now ≡ file_of input.now }
{
    let end = until(input, b'\n').len();
    input.get(end + 1..).unwrap_or(&[])
}

// Reads the line in front of a file, and stores its numbers.
pub fn parse(numbers: &mut [u8], input: &[u8]) -> Option<Question>
    requires { 32768 ≤ length numbers.old }
    ensures value { result ≡ question_of input.now }
    ensures numbers_after { numbers.new ≡ numbers_stored input.now numbers.old }
{
    let line = until(input, b'\n');
    let file = file_of(input);
    if line.len() == input.len() || 4095 < line.len() || 60000 < file.len() {
        return None;
    }
    parse_line(numbers, line)
}
