// Rows of the program `calls` that know no state: the codes, and images. A library of its own, so that each check stays short.
//
// images   images made of a message, and what they are received as
// codes    the bare calls, one by one and as the digest of many
#![tactic(auto)]

pub mod codes;
pub mod images;
