// The calls on a state, and the group writer. A part is handed back as its place and its length in what was lent.
ghost use Rattle.std.specs.Prelude.{◌≡◌, cond, eqb, length};
ghost use Rattle.head.specs.Head.{wish_of};
ghost use Rattle.table.specs.Calls.{start_answer, start_after, follow_answer, follow_after, leave_answer, leave_after, end_answer, end_after, set_answer, set_after};
ghost use Rattle.asking.specs.Asking.{asked, told_asked};
ghost use Rattle.adapter.specs.Calls.{packet_answered, packet_answer, packet_after, write_answer, write_after};
ghost use Rattle.feed.specs.Board.{board_from, board_at, board_length};

use asking::{Freshness, Shown};
use faults::Refusal;
use faults::refusal::told;
use head::Wish;

// 20. Every byte becomes 0, but for the setting, which becomes 3.
#[unsafe(no_mangle)]
pub extern "C" fn feed_start(state: &mut [u8]) -> u8
    ensures value { result ≡ start_answer state.old }
    ensures state_after { state.new ≡ start_after state.old }
{
    told(&table::start(state))
}

// 20, 34, 22, 23, 24, 25, 26.
#[unsafe(no_mangle)]
pub extern "C" fn feed_follow(state: &mut [u8], address: u32, protection: u32, limit: u32) -> u8
    ensures value { result ≡ follow_answer state.old (wish_of address protection limit) }
    ensures state_after { state.new ≡ follow_after state.old (wish_of address protection limit) }
{
    told(&table::follow(state, Wish::new(address, protection, limit)))
}

// 20, 34, 22, 27.
#[unsafe(no_mangle)]
pub extern "C" fn feed_leave(state: &mut [u8], address: u32) -> u8
    ensures value { result ≡ leave_answer state.old address }
    ensures state_after { state.new ≡ leave_after state.old address }
{
    told(&table::leave(state, address))
}

// 20, 34, 21, 49, 27, 28, 29, 47, 30, 31, 32; otherwise 1, 2 or 3.
#[unsafe(no_mangle)]
pub extern "C" fn feed_packet(state: &mut [u8], image: &[u8]) -> u8
    ensures value { result ≡ packet_answer state.old image.now }
    ensures state_after { state.new ≡ packet_after state.old image.now }
{
    adapter::packet(state, image)
}

// The same with what the number carries: with 32 the index that was awaited and the one that came, with 31 the place of the first
// word that cannot be read; 0 otherwise.
#[unsafe(no_mangle)]
pub extern "C" fn feed_packet_detail(
    state: &mut [u8],
    image: &[u8],
    awaited_or_place: &mut u8,
    came: &mut u8,
) -> u8
    ensures value { result ≡ (packet_answered state.old image.now).number }
    ensures state_after { state.new ≡ packet_after state.old image.now }
    ensures awaited_or_place_after { awaited_or_place.new ≡ (packet_answered state.old image.now).detail }
    ensures came_after { came.new ≡ (packet_answered state.old image.now).came }
{
    let answer = adapter::answered(state, image);
    *awaited_or_place = answer.detail;
    *came = answer.came;
    answer.number
}

// 20, 34, 48. From now on the header of a packet may have so many flips.
#[unsafe(no_mangle)]
pub extern "C" fn feed_set_header_flips(state: &mut [u8], most: u32) -> u8
    ensures value { result ≡ set_answer state.old most }
    ensures state_after { state.new ≡ set_after state.old most }
{
    told(&table::set_header_flips(state, most))
}

// 20, 34.
#[unsafe(no_mangle)]
pub extern "C" fn feed_subframe_end(state: &mut [u8]) -> u8
    ensures value { result ≡ end_answer state.old }
    ensures state_after { state.new ≡ end_after state.old }
{
    told(&table::subframe_end(state))
}

// 20, 34, 22, 27, or 4 to 7; with 5 to 7 the place and the length of the group in the state, otherwise 0 and 0.
#[unsafe(no_mangle)]
pub extern "C" fn feed_ask(state: &[u8], address: u32, at: &mut usize, len: &mut usize) -> u8
    ensures value { result ≡ (asked state.now address).number }
    ensures at_after { at.new ≡ (asked state.now address).at }
    ensures len_after { len.new ≡ (asked state.now address).len }
{
    let answer = asking::answer(state, address);
    (*at, *len) = match answer {
        Ok(Some(shown)) => (shown.at, shown.len),
        Ok(None) | Err(_) => (0, 0),
    };
    asking::told(answer)
}

// Ask's number. Where it is 5, `from` is 1 and the part is the group in the state; otherwise `from` is 0 and the part is the
// whole notice.
#[unsafe(no_mangle)]
pub extern "C" fn feed_board_text(
    state: &[u8],
    address: u32,
    notice: &[u8],
    from: &mut u8,
    at: &mut usize,
    len: &mut usize,
) -> u8
    ensures value { result ≡ (asked state.now address).number }
    ensures from_after { from.new ≡ board_from state.now address }
    ensures at_after { at.new ≡ board_at state.now address }
    ensures len_after { len.new ≡ board_length state.now address notice.now }
{
    let answer = asking::answer(state, address);
    (*from, *at, *len) = part(answer, notice.len());
    asking::told(answer)
}

// The buffer of the part, its place there and its length.
fn part(answer: Result<Option<Shown>, Refusal>, notice: usize) -> (u8, usize, usize)
    ensures from { result.0 ≡ cond (eqb (told_asked answer).number 5) 1 0 }
    ensures at { result.1 ≡ cond (eqb (told_asked answer).number 5) (told_asked answer).at 0 }
    ensures len { result.2 ≡ cond (eqb (told_asked answer).number 5) (told_asked answer).len notice }
{
    match answer {
        Ok(Some(shown)) => match shown.freshness {
            Freshness::Fresh => (1, shown.at, shown.len),
            Freshness::Doubtful | Freshness::Stale => (0, 0, notice),
        },
        Ok(None) | Err(_) => (0, 0, notice),
    }
}

// 22, 23, 20.
#[unsafe(no_mangle)]
pub extern "C" fn feed_write_group(
    address: u32,
    protection: u32,
    message: &[u8],
    output: &mut [u8],
) -> u8
    ensures value { result ≡ write_answer address protection (length message.now) (length output.old) }
    ensures output_after { output.new ≡ write_after address protection message.now output.old }
{
    told(&adapter::write::group(address, protection, message, output))
}
