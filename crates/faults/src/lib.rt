// Why calls are refused, in one list with the numbers of section 6; and which refusals of a packet whose address is found drop the
// unfinished group: of rows 28 to 32 and 47 all but 29.
//
// refusal    the list
#![tactic(auto)]

ghost use Rattle.std.specs.Prelude.{◌≡◌};
ghost use Rattle.faults.specs.Faults.{number_drops};

pub use refusal::Refusal;

pub mod refusal;

#[derive(Clone, Copy)]
pub struct Faults {}

impl Faults {
    // Whether a refusal with this number drops the unfinished group: 28, 47, 30, 31 and 32 do. Every number is answered.
    #[tactic(auto, unfolding(crate::specs::Faults::number_drops))]
    pub fn drop(number: u8) -> bool
        ensures { result ≡ number_drops number }
    {
        let kind = number == u8::from(Refusal::TypeUnreadable)
            || number == u8::from(Refusal::TypeReserved)
            || number == u8::from(Refusal::TypeScrambled);
        kind || number == u8::from(Refusal::WordUnreadable)
            || number == u8::from(Refusal::OutOfStep)
    }
}
