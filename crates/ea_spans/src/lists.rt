// The two lists that spans are written into.
ghost use Rattle.std.specs.Prelude.{◌<◌, [], ◌∷◌, length, Ok};
ghost use Rattle.ea_spans.specs.Values.{Written};

use span_walk::Span;

// A list of addresses and a list of lengths, and the number of the next span.
#[derive(Drop)]
pub struct SpanLists<'a> {
    pub addresses: &'a mut [u64],
    pub lengths: &'a mut [u64],
    pub next: usize,
}

impl<'a> SpanLists<'a> {
    // Writes the next span.
    #[tactic(auto, unfolding(crate::specs::SpanList::each, crate::specs::SpanList::filled))]
    pub fn push(&mut self, span: Span)
        requires { (self.old.next < length self.old.addresses.now) × (self.old.next < length self.old.lengths.now) }
        ensures { Written (Ok (span ∷ [])) self.old self.new }
    {
        self.addresses[self.next] = span.address;
        self.lengths[self.next] = span.length;
        self.next += 1;
    }
}
