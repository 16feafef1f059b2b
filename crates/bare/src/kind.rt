// The four types of a packet (7.4.2.3), and the byte of each.
ghost use Rattle.std.specs.Prelude.{◌≡◌};
ghost use Rattle.bare.specs.Bare.{type_written};
ghost use Rattle.bare.specs.Told.{byte_of, told_kind};

use faults::Refusal;

#[derive(Clone, Copy, Debug, PartialEq, Eq)]
pub enum Kind {
    Data,
    Control,
    Reserved,
    Scrambled,
}

impl Kind {
    // In the order in which a byte is held against them.
    pub const ALL: [Kind; 4] = [Kind::Data, Kind::Control, Kind::Reserved, Kind::Scrambled];
}

impl From<Kind> for u8 {
    ghost from_gives = { λ kind byte. byte ≡ byte_of kind };

    fn from(kind: Kind) -> u8 {
        match kind {
            Kind::Data => 0x00,
            Kind::Control => 0x3F,
            Kind::Reserved => 0xC7,
            Kind::Scrambled => 0xF8,
        }
    }
}

// Nothing is corrected here: a byte that is none of the four is refused with 28.
impl TryFrom<u8> for Kind {
    type Error = Refusal;

    ghost try_from_gives = { λ byte answer. told_kind answer ≡ type_written byte };

    fn try_from(byte: u8) -> Result<Self, Refusal> {
        match byte {
            0x00 => Ok(Kind::Data),
            0x3F => Ok(Kind::Control),
            0xC7 => Ok(Kind::Reserved),
            0xF8 => Ok(Kind::Scrambled),
            _ => Err(Refusal::TypeUnreadable),
        }
    }
}
