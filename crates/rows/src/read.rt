// A row, byte by byte. The byte that ends a line is not fed: the line is closed instead.
ghost use Rattle.std.specs.Prelude.{◌≤◌};

use crate::bytes::Digest;
use crate::{Row, Within};

// The largest number that can take one more digit.
const MOST: u64 = 0x0FFFFFFFFFFFFFFF;

impl Row {
    // A line with one byte more.
    pub fn fed(self, byte: u8) -> Self {
        if matches!(self.within, Within::Comment | Within::Bad) {
            return self;
        }
        match byte {
            b' ' => self.closed(),
            b'#' => self.closed().inside(Within::Comment),
            b'=' => self.closed().awaiting(),
            _ => self.inside(self.opened().spelt(byte)),
        }
    }

    // A line whose open word, if there is one, has ended.
    pub fn closed(mut self) -> Self {
        match self.within {
            Within::Name(digest) => {
                self.name = digest.as_name();
                self.inside(Within::Gap)
            }
            Within::Decimal(number) | Within::Hex(number) => self.kept(number),
            Within::Gap | Within::Comment | Within::Bad => self,
        }
    }

    fn inside(mut self, within: Within) -> Self {
        self.within = within;
        self
    }

    // What comes from here on is awaited. There is one `=` in a row, and fewer arguments than there is room for before it.
    fn awaiting(mut self) -> Self {
        if Self::WANTED <= self.next {
            return self.inside(Within::Bad);
        }
        self.args = self.next;
        self.next = Self::WANTED;
        self
    }

    // A byte of a word opens one where none is open: the first is the name.
    fn opened(self) -> Within {
        match (self.within, self.name) {
            (Within::Gap, None) => Within::Name(Digest::START),
            (Within::Gap, Some(_)) => Within::Decimal(0),
            (within, _) => within,
        }
    }

    // A number that has ended goes to its place.
    fn kept(mut self, number: u64) -> Self {
        let at = self.next;
        if Self::END <= at {
            return self.inside(Within::Bad);
        }
        self.values[at] = number;
        self.next = at + 1;
        self.inside(Within::Gap)
    }
}

impl Within {
    // A word with one byte more.
    fn spelt(self, byte: u8) -> Self {
        match self {
            Self::Name(digest) => Self::Name(digest.with(byte)),
            Self::Decimal(0) | Self::Hex(0) if byte == b'x' => Self::Hex(0),
            Self::Decimal(number) => grown(number, 10, byte).map_or(Self::Bad, Self::Decimal),
            Self::Hex(number) => grown(number, 16, byte).map_or(Self::Bad, Self::Hex),
            Self::Gap | Self::Comment | Self::Bad => self,
        }
    }
}

// A number with one digit more, where that is a digit and the number is not too large.
fn grown(number: u64, base: u64, byte: u8) -> Option<u64>
    requires { base ≤ 16 }
{
    let digit = digit(byte).filter(|digit| *digit < base)?;
    if MOST < number {
        return None;
    }
    Some(number * base + digit)
}

// A digit's value, in either base.
fn digit(byte: u8) -> Option<u64> {
    match byte {
        b'0'..=b'9' => Some(u64::from(byte - b'0')),
        b'a'..=b'f' => Some(u64::from(byte - b'a') + 10),
        _ => None,
    }
}
