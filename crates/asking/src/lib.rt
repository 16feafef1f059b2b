// What the state says of an address: ask, and the text for a board. No call has a `requires`: every slice and every
// number is answered.
#![tactic(auto)]

ghost use Rattle.std.specs.Prelude.{◌≡◌, ◌<◌};
ghost use Rattle.head.specs.Head.{ask_number};
ghost use Rattle.table.specs.State.{slots};
ghost use Rattle.asking.specs.Asking.{freshness_number, told_asked, number_by, part_by, asked_at, asked, ask_part, board_text};

use faults::Refusal;
use head::Head;
use slot::Slot;
use table::look;

// How far a group is to be trusted.
#[derive(Clone, Copy, Debug, PartialEq, Eq)]
pub enum Freshness {
    Fresh,
    Doubtful,
    Stale,
}

impl Freshness {
    // Stale before doubtful before fresh.
    fn of(head: Head) -> Self
        ensures { (head.group ≡ 0 → ⊥) → freshness_number result ≡ ask_number head }
    {
        if head.wish.limit <= head.age {
            Self::Stale
        } else if head.gap == 1 {
            Self::Doubtful
        } else {
            Self::Fresh
        }
    }
}

impl From<Freshness> for u8 {
    ghost from_gives = { λ freshness number. number ≡ freshness_number freshness };

    fn from(freshness: Freshness) -> u8 {
        match freshness {
            Freshness::Fresh => 5,
            Freshness::Doubtful => 6,
            Freshness::Stale => 7,
        }
    }
}

// A group that ask shows: how far it is to be trusted, and its place and its length in the state.
#[derive(Clone, Copy, Debug, PartialEq, Eq)]
pub struct Shown {
    pub freshness: Freshness,
    pub at: usize,
    pub len: usize,
}

impl Shown {
    // What ask shows of a followed address in slot k, where there is a group.
    fn of(k: usize, head: Head) -> Option<Self>
        requires { k < slots }
        ensures { told_asked (Ok result) ≡ asked_at k head }
    {
        if head.group == 0 {
            return None;
        }
        let len = if head.wish.protection == 1 {
            Slot::PROTECTED
        } else {
            Slot::ROOM
        };
        Some(Self {
            freshness: Freshness::of(head),
            at: k * Slot::SIZE + Slot::WHOLE,
            len,
        })
    }
}

// What is known of an address: 20, 34, 22, 27; otherwise its group, if there is one yet.
pub fn answer(state: &[u8], address: u32) -> Result<Option<Shown>, Refusal>
    ensures { told_asked result ≡ asked state.now address }
{
    let k = look::slot_of(state, address)?;
    Ok(Shown::of(k, look::head(state, k)))
}

// What C is given for it: a refusal's number, 4 where there is nothing yet, or 5 to 7.
pub fn told(answer: Result<Option<Shown>, Refusal>) -> u8
    ensures { result ≡ (told_asked answer).number }
{
    match answer {
        Ok(Some(shown)) => u8::from(shown.freshness),
        Ok(None) => 4,
        Err(refusal) => u8::from(refusal),
    }
}

// The same with the part of the state that holds the group.
pub fn ask<'a>(state: &'a [u8], address: u32) -> Result<Option<(Freshness, &'a [u8])>, Refusal>
    ensures number { number_by (λ x. x.0) result ≡ (asked state.now address).number }
    ensures part { part_by (λ x. x.1.now) result ≡ ask_part state.now address }
{
    let Some(shown) = answer(state, address)? else {
        return Ok(None);
    };
    let end = shown.at + shown.len;
    Ok(Some((shown.freshness, &state[shown.at..end])))
}

// Ask's answer, and the stored group where that is fresh, otherwise the whole notice.
pub fn board_text<'a>(
    state: &'a [u8],
    address: u32,
    notice: &'a [u8],
) -> (Result<Option<Freshness>, Refusal>, &'a [u8])
    ensures number { number_by (λ x. x) result.0 ≡ (asked state.now address).number }
    ensures text { result.1.now ≡ board_text state.now address notice.now }
{
    match ask(state, address) {
        Ok(Some((freshness, group))) => {
            let is_fresh = freshness == Freshness::Fresh;
            (Ok(Some(freshness)), if is_fresh { group } else { notice })
        }
        Ok(None) => (Ok(None), notice),
        Err(refusal) => (Err(refusal), notice),
    }
}
