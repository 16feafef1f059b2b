// Rows of plain text: calls with their arguments and what they must answer, so that a test is a line and not a function.
//
//     # a comment, up to the line's end
//     follow 17 1 2 = 0 0x9f02c4d1
//
// A row is a line: a name, up to 15 numbers, and behind `=` up to 8 numbers that are to come. A number is decimal, or hexadecimal behind
// 0x; bytes are numbers in a row. A digest is FNV-1a of 32 bits.
//
// text     all of the rows, read into a buffer
// read     a row, byte by byte
// bytes    what a row does to bytes, and their digest
// tell     a row's answer against what it awaits, what is printed, and how many rows there were
#![tactic(auto)]

ghost use Rattle.std.specs.Prelude.{◌<◌, ◌≤◌};

use crate::bytes::Digest;

pub mod bytes;
pub mod read;
pub mod tell;
pub mod text;

// What a line's last byte stands in, with the word that is open. Behind a comment's sign, and in a line that is no row, nothing more is
// read.
#[derive(Clone, Copy, PartialEq, Eq)]
pub enum Within {
    Gap,
    Name(Digest),
    Decimal(u64),
    Hex(u64),
    Comment,
    Bad,
}

// A line after some of its bytes: its number in the text, what its last byte stands in, the digest of its name; how many arguments it
// has, known from `=` on, and where its next number goes. Arguments stand from 0 on, what is awaited from WANTED on.
// The name stays a digest, as what is printed may not change: names of one digest are one name.
// The numbers stay an array with lengths beside it: there is no heap.
#[derive(Clone, Copy)]
pub struct Row {
    pub line: u64,
    pub within: Within,
    pub name: Option<Digest>,
    pub args: usize,
    pub next: usize,
    pub values: [u64; 24],
}

// What a row's call answers: how many arguments it takes, how many numbers it gives, and these, with 0 behind them. A name that is no
// call's has no answer. The numbers stay an array with a length beside it: there is no heap.
#[derive(Clone, Copy)]
pub struct Answer {
    pub args: usize,
    pub len: usize,
    pub values: [u64; 8],
}

impl Row {
    pub const WANTED: usize = 16;

    pub const END: usize = 24;

    // Arguments of 32 and of 8 bits are taken modulo these; the second program stops at one that is wider.
    pub const WIDE: u64 = 4294967296;

    pub const BYTE: u64 = 256;

    // A line before its first byte.
    pub fn new(line: u64) -> Self {
        Self {
            line,
            within: Within::Gap,
            name: None,
            args: 0,
            next: 0,
            values: [0; 24],
        }
    }

    // Whether this is the row's name.
    pub fn is(self, name: &str) -> bool {
        self.name == Some(Digest::of(name.as_bytes()))
    }

    // An argument of 32 bits.
    pub fn wide(self, place: usize) -> u32
        requires { place < 24 }
    {
        (self.values[place] % Self::WIDE) as u32
    }

    // An argument of 8 bits.
    pub fn byte(self, place: usize) -> u8
        requires { place < 24 }
    {
        (self.values[place] % Self::BYTE) as u8
    }
}

impl Answer {
    pub fn new<const N: usize>(args: usize, numbers: [u64; N]) -> Self
        requires { N ≤ 8 }
    {
        let mut values = [0; 8];
        values[..N].copy_from_slice(&numbers);
        Self {
            args,
            len: N,
            values,
        }
    }

    // Of a row that changes bytes: their digest.
    pub fn whole(args: usize, bytes: &[u8]) -> Self {
        Self::new(args, [Digest::of(bytes).into()])
    }

    // Of a call that may change bytes: its number, and their digest.
    pub fn behind(args: usize, number: u8, bytes: &[u8]) -> Self {
        Self::new(args, [number.into(), Digest::of(bytes).into()])
    }
}
