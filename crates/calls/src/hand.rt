// What rows set by hand. Each answers the digest of all that it is a part of.
//
//     lend LENGTH = LENT                                                       so many bytes of the state are lent from here on
//     state AT BYTE ..       images AT BYTE ..       message AT BYTE ..        bytes from a place on
//     fill-state FROM STEP   fill-images FROM STEP   fill-message FROM STEP    every byte: FROM, FROM + STEP, FROM + 2 STEP, ..
//     turn FROM BIT ..                                                         bits of the images turned over, counted from one
use crate::state;
use rows::bytes::{fill, put, turn};
use rows::{Answer, Row};

pub fn called(row: Row, state: &mut [u8], images: &mut [u8], message: &mut [u8]) -> Option<Answer> {
    if row.is("lend") {
        Some(Answer::new(1, [state.len() as u64]))
    } else if row.is("state") {
        Some(put(state, row))
    } else if row.is("images") {
        Some(put(images, row))
    } else if row.is("message") {
        Some(put(message, row))
    } else if row.is("fill-state") {
        Some(fill(state, row))
    } else if row.is("fill-images") {
        Some(fill(images, row))
    } else if row.is("fill-message") {
        Some(fill(message, row))
    } else if row.is("turn") {
        Some(turn(images, row))
    } else {
        state::called(row, state, images, message)
    }
}
