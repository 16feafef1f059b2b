// The packet call and the group writer. No call has a `requires`: every slice and every number is answered.
//
// write    the four images of a group
#![tactic(auto)]

ghost use Rattle.std.specs.Prelude.{◌≡◌, [], length, Ok};
ghost use Rattle.bits.specs.Rows.{refusal, done};
ghost use Rattle.bare.specs.Bare.{header_read};
ghost use Rattle.bare.specs.Told.{told_header};
ghost use Rattle.faults.specs.Refusals.{number_of, told};
ghost use Rattle.image.specs.Image.{header_of};
ghost use Rattle.words.specs.Protected.{data_read};
ghost use Rattle.packet.specs.Received.{data_as};
ghost use Rattle.slot.specs.Slot.{slot_size, head_of};
ghost use Rattle.table.specs.State.{state_size};
ghost use Rattle.group.specs.Group.{taken, taken_after};
ghost use Rattle.adapter.specs.Calls.{reading_at, slot_answered, slot_after, refused_answer, answered_by, packet_answered, packet_answer, packet_after, image_rows, place_rows};

use bare::Header;
use faults::Refusal;
use group::Answer;
use head::Head;
use image::Packet;
use slot::Slot;
use table::look;

pub mod write;

// One image: 20, 34, 21, 49, 27, 28, 29, 47, 30, 31, 32, or 1 started, 2 held, 3 whole.
pub fn packet(state: &mut [u8], image: &[u8]) -> u8
    ensures value { result ≡ packet_answer state.old image.now }
    ensures state_after { state.new ≡ packet_after state.old image.now }
{
    answered(state, image).number
}

// The same with what 31 and 32 carry, and 0 with every other number.
pub fn answered(state: &mut [u8], image: &[u8]) -> Answer
    ensures value { result ≡ packet_answered state.old image.now }
    ensures state_after { state.new ≡ packet_after state.old image.now }
{
    if let Err(refusal) = checked(state, image) {
        return refused(refusal);
    }
    let header = bare::near_header(image::header(image));
    arrived(state, header, image)
}

// The rows that need no slot: 20, 34, 21.
fn checked(state: &[u8], image: &[u8]) -> Result<(), Refusal>
    ensures { told result ≡ refusal (image_rows state.now image.now []) }
{
    if image.len() != Packet::IMAGE {
        return Err(Refusal::Length);
    }
    look::checked(state)?;
    if image::spare(image) == 1 {
        return Err(Refusal::SpareBit);
    }
    Ok(())
}

// A call that is refused before its slot is found: nothing is told of the packet.
fn refused(refusal: Refusal) -> Answer
    ensures { result ≡ refused_answer (number_of refusal) }
{
    Answer {
        number: refusal.into(),
        detail: 0,
        came: 0,
    }
}

// 49, 27, or what the slot of the address answers.
fn arrived(state: &mut [u8], header: Header, image: &[u8]) -> Answer
    requires state_len { length state.old ≡ state_size }
    requires header_value { told_header (Ok header) ≡ header_read (header_of image.now) }
    requires image_len { length image.now ≡ 94 }
    ensures value { result ≡ answered_by (refusal (place_rows state.old image.now)) (slot_answered state.old image.now) }
    ensures state_after { state.new
        ≡ done (refusal (place_rows state.old image.now)) (slot_after state.old image.now) state.old }
{
    if look::setting(state) < header.flips {
        return refused(Refusal::BeyondSetting);
    }
    let address = header.address as u32;
    if address == 0 {
        return refused(Refusal::NotFollowed);
    }
    let Some(k) = look::find(state, address) else {
        return refused(Refusal::NotFollowed);
    };
    let at = k * Slot::SIZE;
    served(&mut state[at..at + Slot::SIZE], header, image)
}

// What the slot of its address answers to an image, by its type, and then by the slot's protection.
fn served(slot: &mut [u8], header: Header, image: &[u8]) -> Answer
    requires slot_len { length slot.old ≡ slot_size }
    requires header_value { told_header (Ok header) ≡ header_read (header_of image.now) }
    requires image_len { length image.now ≡ 94 }
    ensures value { result ≡ taken (reading_at slot.old image.now) (head_of slot.old) }
    ensures slot_after { slot.new ≡ taken_after (reading_at slot.old image.now) slot.old }
{
    let head = Slot::load(slot);
    if let Err(refusal) = packet::type_refusal(image) {
        return group::refused(slot, head, refusal.into(), 0);
    }
    let useful = image::useful(image);
    if head.wish.protection == 1 {
        protected(slot, head, header.index, &useful)
    } else {
        group::taken(slot, head, header.index, &useful)
    }
}

// What a protected slot answers to a data packet: 31 with the place of its word, or by the 45 bytes.
fn protected(slot: &mut [u8], head: Head, index: u8, useful: &[u8]) -> Answer
    requires slot_len { length slot.old ≡ slot_size }
    requires head_value { head ≡ head_of slot.old }
    requires protection_value { head.wish.protection ≡ 1 }
    requires useful_len { length useful.now ≡ 90 }
    ensures value { result ≡ taken (data_as index (data_read useful.now)) head }
    ensures slot_after { slot.new ≡ taken_after (data_as index (data_read useful.now)) slot.old }
{
    match words::unprotect(useful) {
        Ok(data) => {
            let bytes = data.bytes;
            group::taken(slot, head, index, &bytes)
        }
        Err(word) => group::refused(slot, head, Refusal::WordUnreadable.into(), word.place),
    }
}
