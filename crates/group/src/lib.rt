// One packet at the slot of its address: section 4's table on the slot's bytes. It knows no other slot. The answer passes `refused`
// or `taken` and no other place; all gap marks are made by `dropped` and by a start.
#![tactic(auto)]

ghost use Rattle.std.specs.Prelude.{◌≡◌, ◌<◌, ◌≤◌, length};
ghost use Rattle.slot.specs.Slot.{slot_size, room_size, head_of, with_head};
ghost use Rattle.head.specs.Head.{whole_head};
ghost use Rattle.head.specs.Move.{move_number, row_at, place_at};
ghost use Rattle.packet.specs.Received.{refused_as, readable_as};
ghost use Rattle.group.specs.Told.{told_row};
ghost use Rattle.group.specs.Group.{block_of, slot_joined, rooms_kept, slot_moved, slot_dropped, answer_of, taken, taken_after};

use faults::{Faults, Refusal};
use head::Head;
use image::Packet;
use slot::{Slot, room};

// A group is four packets (7.4.2.2); each brings a fourth of what its slot has room for.
#[derive(Clone, Copy)]
pub struct Group {}

impl Group {
    pub const PACKETS: usize = 4;

    pub const PLAIN: usize = Slot::ROOM / Self::PACKETS;

    pub const PROTECTED: usize = Slot::PROTECTED / Self::PACKETS;

    pub const IMAGES: usize = Self::PACKETS * Packet::IMAGE;
}

// The row of section 4's table that a readable data packet takes.
#[derive(Clone, Copy, Debug, PartialEq, Eq)]
pub enum Row {
    Started,
    Held,
    Whole,
    OutOfStep,
}

impl From<Row> for u8 {
    ghost from_gives = { λ row number. number ≡ move_number (told_row row) };

    fn from(row: Row) -> u8 {
        match row {
            Row::Started => 1,
            Row::Held => 2,
            Row::Whole => 3,
            Row::OutOfStep => Refusal::OutOfStep.into(),
        }
    }
}

// It stays a number with what it carries: C is handed just these three, and a refusal may have any number but 0 (`refused`).
//
// What a packet is answered: its number, and what it carries. With 32 the detail is the index that was awaited, beside the one that
// came; with 31 it is the place of the first word that cannot be read. What a number does not carry is 0.
#[derive(Clone, Copy)]
pub struct Answer {
    pub number: u8,
    pub detail: u8,
    pub came: u8,
}

// A refused packet, with the place of its word: by its number it drops the unfinished group, or leaves the slot.
pub fn refused(slot: &mut [u8], head: Head, number: u8, place: u8) -> Answer
    requires slot_len { length slot.old ≡ slot_size }
    requires head_value { head ≡ head_of slot.old }
    requires fact { number ≡ 0 → ⊥ }
    ensures value { result ≡ taken (refused_as number place) head }
    ensures slot_after { slot.new ≡ taken_after (refused_as number place) slot.old }
{
    if Faults::drop(number) {
        dropped(slot, head);
    }
    told(number, place, head.awaited, 0)
}

// A readable data packet: 1 started, 2 held, 3 whole, or 32. The index awaited is that of the head before the packet, since a packet
// out of step makes the slot await 0.
pub fn taken(slot: &mut [u8], head: Head, index: u8, bytes: &[u8]) -> Answer
    requires slot_len { length slot.old ≡ slot_size }
    requires head_value { head ≡ head_of slot.old }
    requires bytes_len { length bytes.now ≡ block_of head }
    ensures value { result ≡ taken (readable_as index bytes.now) head }
    ensures slot_after { slot.new ≡ taken_after (readable_as index bytes.now) slot.old }
{
    let row = moved(slot, head, index, bytes);
    told(row.into(), 0, head.awaited, index)
}

// The two indices are told only where they are why the packet was refused; otherwise the place, which only 31 has.
fn told(number: u8, place: u8, awaited: u8, came: u8) -> Answer
    ensures { result ≡ answer_of number place awaited came }
{
    if number == u8::from(Refusal::OutOfStep) {
        return Answer {
            number,
            detail: awaited,
            came,
        };
    }
    Answer {
        number,
        detail: place,
        came: 0,
    }
}

// The row of section 4's table, by the packet's place in its group.
fn moved(slot: &mut [u8], head: Head, index: u8, bytes: &[u8]) -> Row
    requires slot_len { length slot.old ≡ slot_size }
    requires head_value { head ≡ head_of slot.old }
    requires bytes_len_bound { length bytes.now ≤ 90 }
    ensures value { told_row result ≡ row_at head index }
    ensures slot_after { slot.new ≡ slot_moved (row_at head index) (place_at head index) bytes.now slot.old }
{
    let place = index % head.per();
    if place != 0 && place != head.awaited {
        dropped(slot, head);
        return Row::OutOfStep;
    }
    joined(slot, place, bytes);
    if head.needs() <= place + 1 {
        whole(slot, head, (place as usize + 1) * bytes.len());
        return Row::Whole;
    }
    if place == 0 {
        Slot::store(head.started(), slot);
        return Row::Started;
    }
    Slot::store(head.held(), slot);
    Row::Held
}

// A packet's bytes at their place; the first of a group begins it anew.
fn joined(slot: &mut [u8], place: u8, bytes: &[u8])
    requires slot_len { length slot.old ≡ slot_size }
    requires place_bound { place ≤ 3 }
    requires bytes_len_bound { length bytes.now ≤ 90 }
    ensures { slot.new ≡ slot_joined place bytes.now slot.old }
{
    if place == 0 {
        room::empty(slot);
    }
    runs::copy(slot, place as usize * bytes.len(), bytes);
}

// Answer 3: what is held becomes the last whole group.
fn whole(slot: &mut [u8], head: Head, len: usize)
    requires slot_len { length slot.old ≡ slot_size }
    requires len_le_room_size { len ≤ room_size }
    ensures { slot.new ≡ with_head (whole_head head) (rooms_kept len slot.old) }
{
    room::keep(slot, len);
    room::empty(slot);
    Slot::store(head.whole(), slot);
}

// 28, 47, 30, 31, 32: the unfinished group is dropped.
fn dropped(slot: &mut [u8], head: Head)
    requires slot_len { length slot.old ≡ slot_size }
    requires head_value { head ≡ head_of slot.old }
    ensures { slot.new ≡ slot_dropped slot.old }
{
    room::empty(slot);
    Slot::store(head.dropped(), slot);
}
