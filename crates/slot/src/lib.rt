// One slot's bytes: its head, taken out as a value and stored again, and its two rooms. Byte places stand in specs/Slot.antt and
// in the constants below, and nowhere else.
//
// room     the two rooms of a slot
#![tactic(auto)]

ghost use Rattle.std.specs.Prelude.{◌≡◌, eqb, length};
ghost use Rattle.slot.specs.Slot.{slot_size, head_of, with_head, free, good_slot};

use head::{Head, Wish};

pub mod room;

#[derive(Clone, Copy)]
pub struct Slot {}

impl Slot {
    // Room for a group, and the places of the rooms and of the head; protected groups fill half of a room.
    pub const ROOM: usize = 360;

    pub const PROTECTED: usize = Self::ROOM / 2;

    pub const UNFINISHED: usize = 0;

    pub const WHOLE: usize = Self::UNFINISHED + Self::ROOM;

    pub const HEAD: usize = Self::WHOLE + Self::ROOM;

    pub const HEAD_SIZE: usize = 16;

    pub const SIZE: usize = Self::HEAD + Self::HEAD_SIZE;

    // The head of a slot.
    pub fn load(slot: &[u8]) -> Head
        requires { length slot.now ≡ slot_size }
        ensures { result ≡ head_of slot.now }
    {
        let wish = Wish {
            address: runs::four_at(slot, Slot::HEAD),
            limit: runs::four_at(slot, Slot::HEAD + 4),
            protection: slot[Slot::HEAD + 12] as u32,
        };
        Head {
            wish,
            age: runs::four_at(slot, Slot::HEAD + 8),
            awaited: slot[Slot::HEAD + 13],
            group: slot[Slot::HEAD + 14],
            gap: slot[Slot::HEAD + 15],
        }
    }

    // Puts the head into a slot, and touches no other byte.
    pub fn store(head: Head, slot: &mut [u8])
        requires { length slot.old ≡ slot_size }
        ensures { slot.new ≡ with_head head slot.old }
    {
        runs::put_four(slot, Slot::HEAD, head.wish.address);
        runs::put_four(slot, Slot::HEAD + 4, head.wish.limit);
        runs::put_four(slot, Slot::HEAD + 8, head.age);
        slot[Slot::HEAD + 12] = (head.wish.protection % 256) as u8;
        slot[Slot::HEAD + 13] = head.awaited;
        slot[Slot::HEAD + 14] = head.group;
        slot[Slot::HEAD + 15] = head.gap;
    }

    // Within the bounds, or free, every byte 0, by the slot's own head, which the caller has loaded. The bytes are folded
    // together, with no early end, and only where the head says that the slot is not used.
    pub fn good(slot: &[u8], head: Head) -> bool
        requires slot_len { length slot.now ≡ slot_size }
        requires head_value { head ≡ head_of slot.now }
        ensures { result ≡ good_slot slot.now }
    {
        if head.good() {
            return true;
        }
        folded(slot) == 0
    }
}

// All bytes folded together: 0 exactly if each is. A loop over the bytes, since `fold` costs a sixth more time on a slot.
fn folded(slot: &[u8]) -> u8
    ensures { eqb result 0 ≡ free slot.now }
{
    let mut all = 0;
    for byte in slot {
        all |= *byte;
    }
    all
}
