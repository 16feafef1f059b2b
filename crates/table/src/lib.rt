// The state of 16 slots and a setting, and the calls that change it but for the packet call. No call has a `requires`: every slice and
// every number is answered.
//
// look     what the state is asked before a change: heads, the slot of an address, whether it is good
#![tactic(auto)]

ghost use Rattle.std.specs.Prelude.{◌≡◌, length};
ghost use Rattle.faults.specs.Refusals.{told};
ghost use Rattle.table.specs.State.{slots, state_size};
ghost use Rattle.table.specs.Calls.{start_answer, start_after, follow_answer, follow_after, leave_answer, leave_after, end_answer, end_after, ages, set_answer, set_after};

use bare::Header;
use faults::Refusal;
use head::{Head, Wish};
use slot::Slot;

pub mod look;

#[derive(Clone, Copy)]
pub struct Table {}

impl Table {
    pub const SLOTS: usize = 16;

    // Behind the slots, one byte: the greatest number of flips to correct in a packet's header.
    pub const SETTING: usize = Self::SLOTS * Slot::SIZE;

    pub const SIZE: usize = Self::SETTING + 1;
}

// 20. Every byte becomes 0, but for the setting, which becomes 3.
pub fn start(state: &mut [u8]) -> Result<(), Refusal>
    ensures value { told result ≡ start_answer state.old }
    ensures state_after { state.new ≡ start_after state.old }
{
    if state.len() != Table::SIZE {
        return Err(Refusal::Length);
    }
    runs::clear(state);
    state[Table::SETTING] = Header::CORRECTED as u8;
    Ok(())
}

// 20, 34, 22, 23, 24, 25, 26. The lowest free slot is taken.
pub fn follow(state: &mut [u8], wish: Wish) -> Result<(), Refusal>
    ensures value { told result ≡ follow_answer state.old wish }
    ensures state_after { state.new ≡ follow_after state.old wish }
{
    let k = look::room_for(state, wish)?;
    let at = k * Slot::SIZE;
    Slot::store(Head::new(wish), &mut state[at..at + Slot::SIZE]);
    Ok(())
}

// 20, 34, 22, 27. The slot becomes 0.
pub fn leave(state: &mut [u8], address: u32) -> Result<(), Refusal>
    ensures value { told result ≡ leave_answer state.old address }
    ensures state_after { state.new ≡ leave_after state.old address }
{
    let k = look::slot_of(state, address)?;
    let at = k * Slot::SIZE;
    runs::clear(&mut state[at..at + Slot::SIZE]);
    Ok(())
}

// 20, 34. Every slot that has a whole group is a subframe older.
pub fn subframe_end(state: &mut [u8]) -> Result<(), Refusal>
    ensures value { told result ≡ end_answer state.old }
    ensures state_after { state.new ≡ end_after state.old }
{
    look::checked(state)?;
    age(state);
    Ok(())
}

// Every slot's head aged.
fn age(state: &mut [u8])
    requires { length state.old ≡ state_size }
    ensures { state.new ≡ ages slots 0 state.old }
{
    for k in 0..Table::SLOTS {
        let aged = look::head(state, k).aged();
        let at = k * Slot::SIZE;
        Slot::store(aged, &mut state[at..at + Slot::SIZE]);
    }
}

// 20, 34, 48. From now on the header of a packet may have so many flips.
pub fn set_header_flips(state: &mut [u8], most: u32) -> Result<(), Refusal>
    ensures value { told result ≡ set_answer state.old most }
    ensures state_after { state.new ≡ set_after state.old most }
{
    look::checked(state)?;
    if Header::CORRECTED < most {
        return Err(Refusal::Setting);
    }
    state[Table::SETTING] = most as u8;
    Ok(())
}
