// Records: the format of their bytes, and a place by value that moves forward over them.
//
// kind       what a record asks for
// reading    a reader that keeps the slice
#![tactic(auto)]

ghost use Rattle.std.specs.Prelude.{◌≡◌, ◌+◌, ◌≤◌, length};
ghost use Rattle.runs.specs.Numbers.{two_at};
ghost use Rattle.records.specs.Format.{body_size, good_head, step_at};

use image::Packet;
pub use kind::Kind;

pub mod kind;
pub mod reading;

// What stands at a place: a record, with its kind's byte and where its body begins; the end; too few bytes yet; a bad record.
// The kind is the byte: what the definitions say of a record, they say of any byte there.
#[derive(Clone, Copy, Debug, PartialEq, Eq)]
pub enum Step {
    Record(u8, usize),
    End,
    More,
    Bad,
}

// Sizes of records (section 7).
#[derive(Clone, Copy)]
pub struct Format {}

impl Format {
    pub const HEAD: usize = 4;

    pub const VERSION: u8 = 1;

    // Of no kind: longer than any length can say.
    pub const NONE: usize = 65536;
}

// How long a kind's body is. It takes the kind's byte, as a record has it: every number is answered.
pub fn body_size(kind: u8) -> usize
    ensures { result ≡ body_size kind }
{
    match Kind::try_from(kind) {
        Ok(Kind::Packet) => Packet::IMAGE,
        Ok(Kind::SubframeEnd) => 0,
        Ok(Kind::Follow) => 5,
        Ok(Kind::Leave) => 2,
        Ok(Kind::Ask) => 2,
        Err(_) => Format::NONE,
    }
}

// Version, kind and length agree.
fn good_head(s: &[u8], at: usize) -> bool
    requires { at + 4 ≤ length s.now }
    ensures { result ≡ good_head s.now at }
{
    let right = 2 + body_size(s[at + 3]) as u32;
    (s[at + 2] == Format::VERSION) & (runs::two_at(s, at) == right)
}

// What stands at a place.
pub fn next(s: &[u8], at: usize) -> Step
    ensures { result ≡ step_at s.now at }
{
    if s.len() <= at {
        return Step::End;
    }
    let left = s.len() - at;
    if left < Format::HEAD {
        return Step::More;
    }
    if !good_head(s, at) {
        return Step::Bad;
    }
    let kind = s[at + 3];
    if left < Format::HEAD + body_size(kind) {
        Step::More
    } else {
        Step::Record(kind, at + Format::HEAD)
    }
}
