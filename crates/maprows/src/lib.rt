// Rows of the program `mapcalls` that change no map: what is asked of it, and fields. A library of its own, so that each check stays
// short.
//
// asking   the calls that only read the map
// fields   a field and its six numbers, read and written
#![tactic(auto)]

pub mod asking;
pub mod fields;
