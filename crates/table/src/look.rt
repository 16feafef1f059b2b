// What the state is asked before a change.
ghost use Rattle.std.specs.Prelude.{◌≡◌, not, ◌||◌, ℕ, ◌<◌, ◌+◌, eqb, length, get_or, IfOk, IfSome};
ghost use Rattle.bits.specs.Search.{all};
ghost use Rattle.faults.specs.Refusals.{told};
ghost use Rattle.slot.specs.Slot.{head_of};
ghost use Rattle.table.specs.State.{slots, state_size, setting, slot_at, find, place_of, good};
ghost use Rattle.table.specs.Calls.{end_answer, follow_answer, leave_answer};

use crate::Table;
use bare::Header;
use faults::Refusal;
use head::{Head, Wish};
use slot::Slot;

// The head of slot k.
pub fn head(state: &[u8], k: usize) -> Head
    requires state_len { length state.now ≡ state_size }
    requires k_lt_slots { k < slots }
    ensures { result ≡ head_of (slot_at k state.now) }
{
    let at = k * Slot::SIZE;
    Slot::load(&state[at..at + Slot::SIZE])
}

// The greatest number of flips to correct in a packet's header.
#[tactic(auto, unfolding(crate::specs::State::setting))]
pub fn setting(state: &[u8]) -> u8
    requires { length state.now ≡ state_size }
    ensures { result ≡ setting state.now }
{
    state[Table::SETTING]
}

// The lowest slot with an address. From the last to the first, so that no test ends it early: of sixteen addresses any one is found in 11 ns,
// where `find` on the range, which ends early, takes 20.
pub fn find(state: &[u8], address: u32) -> Option<usize>
    requires { length state.now ≡ state_size }
    ensures place { place_of result ≡ find state.now address }
    ensures in_slots { IfSome result (λ k. k < slots) }
{
    let mut found = Table::SLOTS;
    for k in (0..Table::SLOTS).rev() {
        if head(state, k).wish.address == address {
            found = k;
        }
    }
    (found < Table::SLOTS).then_some(found)
}

// The address at place k, of the slots' addresses with as many 0 behind them, stands at none of the sixteen places behind it.
// As many are looked at for each k, and no test ends it early, so that several are compared at once.
fn last(addresses: &[u16], k: usize) -> bool
    requires addresses_len { length addresses.now ≡ slots + slots }
    requires k_lt_slots { k < slots }
    ensures { result ≡ all (λ (j : ℕ). not (eqb (get_or addresses.now j 0) (get_or addresses.now k 0))) slots (k + 1) }
{
    let address = addresses[k];
    let mut alone = true;
    for other in &addresses[k + 1..k + 1 + Table::SLOTS] {
        alone &= *other != address;
    }
    alone
}

// No address but 0 stands at two places.
fn apart(addresses: &[u16]) -> bool
    requires { length addresses.now ≡ slots + slots }
    ensures { result ≡ all (λ (k : ℕ). eqb (get_or addresses.now k 0) 0 || all (λ (j : ℕ). not (eqb (get_or addresses.now j 0) (get_or addresses.now k 0))) slots (k + 1)) slots 0 }
{
    let mut so = true;
    for k in 0..Table::SLOTS {
        if addresses[k] != 0 {
            so &= last(addresses, k);
        }
    }
    so
}

// Each slot is good, no two used ones share an address, and the setting is 0 to 3. The addresses are gathered first: in the state they stand 736
// bytes apart. Two bytes of each are enough, since a good slot's address has no more, and eight are then compared at once.
pub fn is_good(state: &[u8]) -> bool
    requires { length state.now ≡ state_size }
    ensures { result ≡ good state.now }
{
    let mut addresses = [0; 2 * Table::SLOTS];
    let mut so = true;
    for k in 0..Table::SLOTS {
        let own = head(state, k);
        let at = k * Slot::SIZE;
        so &= Slot::good(&state[at..at + Slot::SIZE], own);
        addresses[k] = (own.wish.address % 65536) as u16;
    }
    so & apart(&addresses) & (setting(state) as u32 <= Header::CORRECTED)
}

// 20, 34.
pub fn checked(state: &[u8]) -> Result<(), Refusal>
    ensures { told result ≡ end_answer state.now }
{
    if state.len() != Table::SIZE {
        return Err(Refusal::Length);
    }
    if is_good(state) {
        Ok(())
    } else {
        Err(Refusal::State)
    }
}

// 20, 34, 22, 23, 24, 25, 26; otherwise the lowest free slot.
pub fn room_for(state: &[u8], wish: Wish) -> Result<usize, Refusal>
    ensures value { told result ≡ follow_answer state.now wish }
    ensures lowest_free { IfOk result (λ k. (k ≡ find state.now 0) × (k < slots)) }
{
    checked(state)?;
    wish.answer()?;
    if find(state, wish.address).is_some() {
        return Err(Refusal::Followed);
    }
    find(state, 0).ok_or(Refusal::Full)
}

// 20, 34, 22, 27; otherwise the slot of the address.
pub fn slot_of(state: &[u8], address: u32) -> Result<usize, Refusal>
    ensures value { told result ≡ leave_answer state.now address }
    ensures of_address { IfOk result (λ k. (k ≡ find state.now address) × (k < slots)) }
{
    checked(state)?;
    if (address < 1) | (Wish::LAST_ADDRESS < address) {
        return Err(Refusal::Address);
    }
    find(state, address).ok_or(Refusal::NotFollowed)
}
