// Serving: each record is one call on a state, and a pass serves those that are whole.
#![tactic(auto)]

ghost use Rattle.std.specs.Prelude.{◌≡◌, ◌≤◌, length, take};
ghost use Rattle.records.specs.Format.{body_size};
ghost use Rattle.serving.specs.Served.{served_answer, served_after, pass};

use faults::refusal::told;
use head::Wish;
use records::{Kind, Step, body_size, next};
use runs::two_at;

// How far a pass over records came: what stands at the place behind the last that was served, how many were, and the place.
#[derive(Clone, Copy, Debug, PartialEq, Eq)]
pub struct Passed {
    pub last: Step,
    pub served: usize,
    pub at: usize,
}

// One record's call on a state. It answers the number that the record program prints, which is any call's; and it takes the kind's byte, as
// a record has it: a byte of no kind is served as ask.
pub fn serve(state: &mut [u8], kind: u8, body: &[u8]) -> u8
    requires { length body.now ≡ body_size kind }
    ensures value { result ≡ served_answer kind body.now state.old }
    ensures state_after { state.new ≡ served_after kind body.now state.old }
{
    match Kind::try_from(kind).unwrap_or(Kind::Ask) {
        Kind::Packet => adapter::packet(state, body),
        Kind::SubframeEnd => told(&table::subframe_end(state)),
        Kind::Follow => {
            let wish = Wish::new(two_at(body, 0), body[2] as u32, two_at(body, 3));
            told(&table::follow(state, wish))
        }
        Kind::Leave => told(&table::leave(state, two_at(body, 0))),
        Kind::Ask => asking::told(asking::answer(state, two_at(body, 0))),
    }
}

// Serves the whole records of a slice in turn, and puts their answers in a row. The loop's value is what stands behind the last of them.
pub fn serve_all(state: &mut [u8], s: &[u8], answers: &mut [u8]) -> Passed
    requires { length s.now ≤ length answers.old }
    ensures value { result.last ≡ (pass (length s.now) s.now 0 state.old).last }
    ensures state_after { state.new ≡ (pass (length s.now) s.now 0 state.old).state }
    ensures answers_after { take result.served answers.new
        ≡ (pass (length s.now) s.now 0 state.old).answers }
    ensures served_in_bounds { result.served ≤ length answers.new }
    ensures at_after { result.at ≡ (pass (length s.now) s.now 0 state.old).at }
    ensures at_in_bounds { result.at ≤ length s.now }
{
    let mut served = 0;
    let mut at = 0;
    let last = loop {
        match next(s, at) {
            Step::Record(kind, body) => {
                let end = body + body_size(kind);
                answers[served] = serve(state, kind, &s[body..end]);
                served += 1;
                at = end;
            }
            step => break step,
        }
    };
    Passed { last, served, at }
}
