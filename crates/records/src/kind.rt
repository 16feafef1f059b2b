// What a record asks for, and the byte that says it (section 7).
ghost use Rattle.std.specs.Prelude.{◌≡◌};
ghost use Rattle.records.specs.Kinds.{HasNumber};

use std::error::Error;
use std::fmt;

#[derive(Clone, Copy, Debug, PartialEq, Eq)]
pub enum Kind {
    Packet,
    SubframeEnd,
    Follow,
    Leave,
    Ask,
}

// A kind byte that is no kind's.
#[derive(Clone, Copy, Debug, PartialEq, Eq)]
pub struct UnknownKind {}

impl TryFrom<u8> for Kind {
    type Error = UnknownKind;

    ghost try_from_gives = { HasNumber };

    fn try_from(number: u8) -> Result<Self, UnknownKind> {
        match number {
            1 => Ok(Kind::Packet),
            2 => Ok(Kind::SubframeEnd),
            3 => Ok(Kind::Follow),
            4 => Ok(Kind::Leave),
            5 => Ok(Kind::Ask),
            _ => Err(UnknownKind {}),
        }
    }
}

impl fmt::Display for UnknownKind {
    fn fmt<W: fmt::Write>(&self, f: &mut fmt::Formatter<W>) -> fmt::Result {
        f.write_str("no record has this kind")
    }
}

impl Error for UnknownKind {}
