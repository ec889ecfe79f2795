#![tactic(auto)]
// Refusals: why a call gives no result.
ghost use Rattle.std.specs.Prelude.{◌≡◌};
ghost use Rattle.refusal.specs.Numbers.{number_of, first_of, second_of};

// Why a call gives no result, with the figures that its number names.
#[derive(Clone, Copy)]
pub enum Refusal {
    // The caller's: 1 offset size (size).
    OffsetSize(u64),
    // 2 length size (size).
    LengthSize(u64),
    // 3 rank over 32, or a chunk shape of another rank.
    Rank,
    // 4 present rank differs.
    PresentRank,
    // 5 maximum rank differs.
    MaximumRank,
    // 6 a chunk length 0.
    ChunkLength,
    // 7 an unlimited dimension where a count is needed.
    Unlimited,
    // 8 more chunks than 2^64 - 1 can number.
    TooManyChunks,
    // 9 list too small (needed records).
    ListTooSmall(u64),
    // 10 corner of wrong rank, unaligned or not below the extents.
    Corner,
    // The file writer's: 20 past the end (expected end, length).
    PastEnd(u64, u64),
    // 21 header signature.
    HeaderSignature,
    // 22 header version (version).
    HeaderVersion(u64),
    // 23 index block signature.
    IndexBlockSignature,
    // 24 data block signature.
    DataBlockSignature,
    // 25 super block signature.
    SuperBlockSignature,
    // 26 checksum (stored, computed).
    Checksum(u64, u64),
    // 27 header not served.
    HeaderNotServed,
    // 28 element size too small.
    ElementSize,
    // 29 size field over 8 bytes.
    SizeField,
    // 30 size over 2^32 - 1 (value).
    Size(u64),
    // Either's: 31 address plus length past 2^64 - 1 (both); of a fixed array's page, its number times the pages'
    // stride (number, stride).
    SpanOverflow(u64, u64),
    // The file writer's: 32 grid numbers nothing.
    NumbersNothing,
    // 33 offset past 2^64 - 1.
    OffsetOverflow,
    // 34 fixed array header signature.
    FixedHeaderSignature,
    // 35 fixed array data block signature.
    FixedDataBlockSignature,
}

impl Refusal {
    // The number by which C and the documents name it.
    #[tactic(auto, unfolding(crate::specs::Numbers::number_of))]
    pub fn number(self) -> u64
        ensures { result ≡ number_of self }
    {
        match self {
            Refusal::OffsetSize(_) => 1,
            Refusal::LengthSize(_) => 2,
            Refusal::Rank => 3,
            Refusal::PresentRank => 4,
            Refusal::MaximumRank => 5,
            Refusal::ChunkLength => 6,
            Refusal::Unlimited => 7,
            Refusal::TooManyChunks => 8,
            Refusal::ListTooSmall(_) => 9,
            Refusal::Corner => 10,
            Refusal::PastEnd(_, _) => 20,
            Refusal::HeaderSignature => 21,
            Refusal::HeaderVersion(_) => 22,
            Refusal::IndexBlockSignature => 23,
            Refusal::DataBlockSignature => 24,
            Refusal::SuperBlockSignature => 25,
            Refusal::Checksum(_, _) => 26,
            Refusal::HeaderNotServed => 27,
            Refusal::ElementSize => 28,
            Refusal::SizeField => 29,
            Refusal::Size(_) => 30,
            Refusal::SpanOverflow(_, _) => 31,
            Refusal::NumbersNothing => 32,
            Refusal::OffsetOverflow => 33,
            Refusal::FixedHeaderSignature => 34,
            Refusal::FixedDataBlockSignature => 35,
        }
    }

    // The first figure that its number names; 0 where it names none.
    #[tactic(auto, unfolding(crate::specs::Numbers::first_of))]
    pub fn first(self) -> u64
        ensures { result ≡ first_of self }
    {
        match self {
            Refusal::OffsetSize(size) | Refusal::LengthSize(size) => size,
            Refusal::ListTooSmall(needed) => needed,
            Refusal::HeaderVersion(version) => version,
            Refusal::Size(value) => value,
            Refusal::PastEnd(first, _)
            | Refusal::Checksum(first, _)
            | Refusal::SpanOverflow(first, _) => first,
            _ => 0,
        }
    }

    // The second.
    #[tactic(auto, unfolding(crate::specs::Numbers::second_of))]
    pub fn second(self) -> u64
        ensures { result ≡ second_of self }
    {
        match self {
            Refusal::PastEnd(_, second)
            | Refusal::Checksum(_, second)
            | Refusal::SpanOverflow(_, second) => second,
            _ => 0,
        }
    }
}
