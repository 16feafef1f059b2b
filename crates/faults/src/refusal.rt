// Why a call is refused, with the number that C is given for it, and in words.
ghost use Rattle.std.specs.Prelude.{◌≡◌};
ghost use Rattle.faults.specs.Refusals.{number_of, told};

use std::error::Error;
use std::fmt;

// Document 01, section 6, in the order of its numbers, and those of document 02.
#[derive(Clone, Copy, Debug, PartialEq, Eq)]
pub enum Refusal {
    Length,
    SpareBit,
    Address,
    Protection,
    Limit,
    Followed,
    Full,
    NotFollowed,
    TypeUnreadable,
    TypeControl,
    TypeScrambled,
    WordUnreadable,
    OutOfStep,
    TooLarge,
    State,
    BadPair,
    TooMany,
    Unfinished,
    TypeReserved,
    Setting,
    BeyondSetting,
}

// The number that stands in section 6.
impl From<Refusal> for u8 {
    ghost from_gives = { λ refusal number. number ≡ number_of refusal };

    fn from(refusal: Refusal) -> u8 {
        match refusal {
            Refusal::Length => 20,
            Refusal::SpareBit => 21,
            Refusal::Address => 22,
            Refusal::Protection => 23,
            Refusal::Limit => 24,
            Refusal::Followed => 25,
            Refusal::Full => 26,
            Refusal::NotFollowed => 27,
            Refusal::TypeUnreadable => 28,
            Refusal::TypeControl => 29,
            Refusal::TypeScrambled => 30,
            Refusal::WordUnreadable => 31,
            Refusal::OutOfStep => 32,
            Refusal::TooLarge => 33,
            Refusal::State => 34,
            Refusal::BadPair => 44,
            Refusal::TooMany => 45,
            Refusal::Unfinished => 46,
            Refusal::TypeReserved => 47,
            Refusal::Setting => 48,
            Refusal::BeyondSetting => 49,
        }
    }
}

// The number that C is given: 0 where the call is done, otherwise the refusal's.
pub fn told<A>(answer: &Result<A, Refusal>) -> u8
    ensures { result ≡ told answer.now }
{
    match answer {
        Ok(_) => 0,
        Err(refusal) => u8::from(*refusal),
    }
}

impl fmt::Display for Refusal {
    fn fmt<W: fmt::Write>(&self, f: &mut fmt::Formatter<W>) -> fmt::Result {
        f.write_str(match self {
            Refusal::Length => "a lent length is wrong",
            Refusal::SpareBit => "the spare bit is set",
            Refusal::Address => "the address is not 1 to 1,022",
            Refusal::Protection => "the protection is not 0 or 1",
            Refusal::Limit => "the limit is not 1 to 1,500",
            Refusal::Followed => "the address is followed already",
            Refusal::Full => "no slot is free",
            Refusal::NotFollowed => "the address is not followed",
            Refusal::TypeUnreadable => "the type cannot be read",
            Refusal::TypeControl => "the packet is a control packet",
            Refusal::TypeScrambled => "the packet is scrambled",
            Refusal::WordUnreadable => "a protected word cannot be read",
            Refusal::OutOfStep => "the packet is out of step",
            Refusal::TooLarge => "a number is too large",
            Refusal::State => "the state is not good",
            Refusal::BadPair => "a pair of the field is wrong",
            Refusal::TooMany => "there are more than 128 components",
            Refusal::Unfinished => "the structure is unfinished",
            Refusal::TypeReserved => "the type is reserved",
            Refusal::Setting => "the setting is above 3",
            Refusal::BeyondSetting => "the header has more flips than the setting",
        })
    }
}

impl Error for Refusal {}
