// What the program does with what a read gave, on its own values: nothing is read or written here.
ghost use Rattle.std.specs.Prelude.{◌≡◌, true, false, ◌+◌, ◌-◌, ◌≤◌, ◌<◌, length, take, drop};
ghost use Rattle.serving.specs.Served.{pass, cut};
ghost use Rattle.answers.specs.Text.{lines};
ghost use Rattle.answers.specs.Said.{held, goes, spoken, told, next};

use crate::text;
use records::Step;
use table::Table;

// The program's values: a state, the buffer that reads fill, how many bytes are kept at its front, room for the lines that are printed,
// the number of the next record, and whether it goes on. `going` stands beside the rest, since what is kept and the number are also
// told of a progress that does not go on.
#[derive(Clone, Copy)]
pub struct Progress {
    pub state: [u8; Table::SIZE],
    pub buffer: [u8; 4096],
    pub kept: usize,
    pub out: [u8; 65536],
    pub number: u64,
    pub going: bool,
}

// How many answers there are for a buffer, the place behind its last whole record, and whether no bad record stands there: all three
// of them in either case.
#[derive(Clone, Copy)]
struct Spoken {
    count: usize,
    at: usize,
    going: bool,
}

impl Progress {
    // Puts what is to be printed for what a read put behind the kept bytes at the front of `out`, and answers how many bytes that is:
    // the lines for what the buffer now holds, of which the bytes behind the last whole record are kept. A read that gives nothing is
    // the end of the file.
    pub fn answered(&mut self, more: usize) -> usize
        requires more_in_bounds { self.old.kept + more ≤ length self.old.buffer }
        requires number_bound { self.old.number + 1025 < 18446744073709551616 }
        ensures out_after { take result self.new.out
            ≡ told (held self.old.state self.old.buffer self.old.kept self.old.number true) (take more (drop self.old.kept self.old.buffer)) }
        ensures going_after { held self.new.state self.new.buffer self.new.kept self.new.number self.new.going
            ≡ next (held self.old.state self.old.buffer self.old.kept self.old.number true) (take more (drop self.old.kept self.old.buffer)) }
        ensures len_in_bounds { result ≤ 65536 }
        ensures number_bound_2 { self.new.number ≤ self.old.number + 1025 }
        ensures kept_bound { self.new.going ≡ true → self.new.kept ≤ 97 }
    {
        if more == 0 {
            self.going = false;
            return ended(&self.buffer[..self.kept], self.number, &mut self.out);
        }
        let end = self.kept + more;
        let mut answers = [0u8; 4096];
        let told = speak(&mut self.state, &self.buffer[..end], &mut answers);
        let len = text::put_lines(&mut self.out, self.number, &answers[..told.count]);
        self.buffer.copy_within(told.at..end, 0);
        self.kept = end - told.at;
        self.number += told.count as u64;
        self.going = told.going;
        len
    }
}

// The end of the file: what is kept is a record cut short.
#[tactic(auto, using(crate::proofs::Turning::cut_none), unfolding(crate::specs::Text::lines))]
fn ended(kept: &[u8], number: u64, out: &mut [u8]) -> usize
    requires out_len { length out.old ≡ 65536 }
    requires number_bound { number + 1025 < 18446744073709551616 }
    ensures out_after { take result out.new ≡ lines number (cut kept.now) }
    ensures len_in_bounds { result ≤ length out.new }
{
    if kept.is_empty() {
        return 0;
    }
    text::put_lines(out, number, &[35])
}

// The answers for a buffer: those of its whole records, and 35 where the record behind them is bad.
fn speak(state: &mut [u8], s: &[u8], answers: &mut [u8]) -> Spoken
    requires s_len_bound { length s.now ≤ 4096 }
    requires answers_len { length answers.old ≡ 4096 }
    ensures answers_after { take result.count answers.new ≡ spoken state.old s.now }
    ensures state_after { state.new ≡ (pass (length s.now) s.now 0 state.old).state }
    ensures at_value { result.at ≡ (pass (length s.now) s.now 0 state.old).at }
    ensures going_value { result.going ≡ goes (pass (length s.now) s.now 0 state.old).last }
    ensures count_bound { result.count ≤ 1025 }
    ensures at_in_bounds { result.at ≤ length s.now }
    ensures s_len_bound_2 { result.going ≡ true → length s.now ≤ result.at + 97 }
{
    let pass = serving::serve_all(state, s, answers);
    if goes_on(pass.last) {
        return Spoken {
            count: pass.served,
            at: pass.at,
            going: true,
        };
    }
    answers[pass.served] = 35;
    Spoken {
        count: pass.served + 1,
        at: pass.at,
        going: false,
    }
}

fn goes_on(last: Step) -> bool
    ensures { result ≡ goes last }
{
    !matches!(last, Step::Bad)
}
