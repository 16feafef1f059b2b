// The reader that keeps the slice: a struct with the records' bytes and a place in them, which its methods hand on by value.
ghost use Rattle.std.specs.Prelude.{◌≡◌};
ghost use Rattle.records.specs.Format.{step_at, record_size};

use crate::{Format, Step, body_size};

#[derive(Clone, Copy)]
pub struct Reader<'a> {
    pub src: &'a [u8],
    pub at: usize,
}

impl<'a> Reader<'a> {
    // A reader at the first record.
    pub fn new(src: &'a [u8]) -> Self
        ensures { (result.src ≡ src.entry) × (result.at ≡ 0) }
    {
        Self { src, at: 0 }
    }

    // What stands at the reader's place.
    pub fn next(self) -> Step
        ensures { result ≡ step_at self.entry.src.now self.entry.at }
    {
        crate::next(self.src, self.at)
    }

    // The same slice, read on from another place.
    pub fn moved(self, at: usize) -> Self
        ensures { (result.src ≡ self.entry.src) × (result.at ≡ at) }
    {
        Self { src: self.src, at }
    }

    // Where the reader stands.
    pub fn place(self) -> usize
        ensures { result ≡ self.entry.at }
    {
        self.at
    }
}

// What stands at a place of a slice, by a reader of its own: for callers that hold a plain slice.
pub fn looked(s: &[u8], at: usize) -> Step
    ensures { result ≡ step_at s.now at }
{
    Reader::new(s).moved(at).next()
}

// How many bytes the record at a place has, head and all; 0 where none stands.
pub fn size_at(s: &[u8], at: usize) -> usize
    ensures { result ≡ record_size (step_at s.now at) }
{
    match looked(s, at) {
        Step::Record(kind, _) => Format::HEAD + body_size(kind),
        Step::End => 0,
        Step::More => 0,
        Step::Bad => 0,
    }
}
