// A packet: what its type byte and data are read as, and the image that is written. It knows no state.
#![tactic(auto)]

ghost use Rattle.std.specs.Prelude.{◌≡◌, false, [], ◌∷◌, ◌<◌, ◌≤◌, length, Ok};
ghost use Rattle.bits.specs.Rows.{refusal};
ghost use Rattle.faults.specs.Faults.{type_unreadable, type_control, type_reserved, type_scrambled, rows_by};
ghost use Rattle.faults.specs.Refusals.{told};
ghost use Rattle.packet.specs.Received.{has_fault, received, written, readable_as, data_as};
ghost use Rattle.packet.specs.Told.{told_reading, unread_as, at_word};
ghost use Rattle.words.specs.Protected.{data_read};

use bare::{Header, Kind};
use faults::Refusal;
use image::Packet;
use words::Unreadable;

// What a packet is read as: the index; the 90 useful bytes, or the 45 of protected data with 0 behind them.
#[derive(Clone, Copy)]
pub struct Reading {
    pub index: u8,
    pub bytes: [u8; Packet::USEFUL],
}

// Why a packet is not read; with 31 the place of the first word that cannot be, otherwise 0.
#[derive(Clone, Copy)]
pub struct Unread {
    pub refusal: Refusal,
    pub place: u8,
}

impl From<Refusal> for Unread {
    ghost from_gives = { λ refusal unread. unread ≡ unread_as refusal };

    fn from(refusal: Refusal) -> Self {
        Self { refusal, place: 0 }
    }
}

impl From<Unreadable> for Unread {
    ghost from_gives = { λ word unread. unread ≡ at_word word };

    fn from(word: Unreadable) -> Self {
        Self {
            refusal: Refusal::WordUnreadable,
            place: word.place,
        }
    }
}

// What an image is read as. 20: not 94 bytes; 28: type unreadable; 29: type 3F, a control packet; 47: type C7; 30: type F8;
// 31: a protected word can't be read.
pub fn received(protected: bool, image: &[u8]) -> Result<Reading, Unread>
    ensures { told_reading result ≡ received protected image.now }
{
    if image.len() != Packet::IMAGE {
        return Err(Refusal::Length.into());
    }
    type_refusal(image)?;
    let header = bare::near_header(image::header(image));
    let useful = image::useful(image);
    if protected {
        unprotected(header.index, &useful)
    } else {
        Ok(readable(header.index, &useful))
    }
}

// What the type byte refuses: 28, 29, 47 or 30.
pub fn type_refusal(image: &[u8]) -> Result<(), Refusal>
    requires { length image.now ≡ 94 }
    ensures { told result ≡ refusal (rows_by (has_fault false image.now) (type_unreadable ∷ type_control ∷ type_reserved ∷ type_scrambled ∷ [])) }
{
    match bare::read_type(image::kind(image))?.kind {
        Kind::Data => Ok(()),
        Kind::Control => Err(Refusal::TypeControl),
        Kind::Reserved => Err(Refusal::TypeReserved),
        Kind::Scrambled => Err(Refusal::TypeScrambled),
    }
}

// A packet that is read: its bytes, with 0 behind them to fill the room of 90.
fn readable(index: u8, from: &[u8]) -> Reading
    requires { length from.now ≤ 90 }
    ensures { told_reading (Ok result) ≡ readable_as index from.now }
{
    let mut bytes = [0u8; Packet::USEFUL];
    bytes[..from.len()].copy_from_slice(from);
    Reading { index, bytes }
}

// The packet of 90 protected bytes, or 31.
fn unprotected(index: u8, useful: &[u8]) -> Result<Reading, Unread>
    requires { length useful.now ≡ 90 }
    ensures { told_reading result ≡ data_as index (data_read useful.now) }
{
    let data = words::unprotect(useful)?;
    let bytes = data.bytes;
    Ok(readable(index, &bytes))
}

// The image of a packet, into bytes that are lent.
pub fn write(address: u32, index: u32, kind: u8, useful: &[u8], out: &mut [u8])
    requires address_bound { address < 1024 }
    requires index_bound { index < 4 }
    requires useful_len { length useful.now ≡ 90 }
    requires out_len { length out.old ≡ 94 }
    ensures { out.new ≡ written address index kind useful.now }
{
    let header = bare::code::header_word(address + Header::ADDRESSES * index);
    image::put(header, kind, useful, out);
}
