// The rooms of a slot: the unfinished one cleared, and its bytes kept as the whole group.
ghost use Rattle.std.specs.Prelude.{◌≡◌, ◌≤◌, length};
ghost use Rattle.bits.specs.Bits.{blank};
ghost use Rattle.slot.specs.Slot.{room_size, slot_size, unfinished, with_unfinished, with_stored, kept_room};

use crate::Slot;

// Clears the unfinished room.
pub fn empty(slot: &mut [u8])
    requires { length slot.old ≡ slot_size }
    ensures { slot.new ≡ with_unfinished (blank room_size) slot.old }
{
    runs::clear(&mut slot[Slot::UNFINISHED..Slot::WHOLE]);
}

// Moves the first bytes of the unfinished room to the whole group's, with 0 behind them. A loop, since `copy_within` has C's `memcpy` do it,
// which whoever links the library would have to bring.
pub fn keep(slot: &mut [u8], len: usize)
    requires slot_len { length slot.old ≡ slot_size }
    requires len_le_room_size { len ≤ room_size }
    ensures { slot.new ≡ with_stored (kept_room len (unfinished slot.old)) slot.old }
{
    for k in 0..len {
        slot[Slot::WHOLE + k] = slot[Slot::UNFINISHED + k];
    }
    runs::clear(&mut slot[Slot::WHOLE + len..Slot::HEAD]);
}
