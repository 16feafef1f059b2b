// What rows set by hand. Each answers the digest of all that it is a part of.
//
//     lend LENGTH = LENT                       so many bytes of the map are lent from here on
//     map AT BYTE ..       field AT BYTE ..    bytes from a place on
//     turn FROM BIT ..                         bits of the field turned over, counted from one
//     fill-map FROM STEP                       every byte: FROM, FROM + STEP, FROM + 2 STEP, ..
//     keep                 back                the map, of 36,356 bytes, is kept, and the kept one comes back
use crate::taking;
use map::Map;
use rows::bytes::{copy, fill, front, put, turn};
use rows::{Answer, Row};

pub fn called(row: Row, map: &mut [u8], kept: &mut [u8], field: &mut [u8]) -> Option<Answer> {
    if row.is("lend") {
        Some(Answer::new(1, [map.len() as u64]))
    } else if row.is("map") {
        Some(put(map, row))
    } else if row.is("field") {
        Some(put(field, row))
    } else if row.is("turn") {
        Some(turn(field, row))
    } else if row.is("fill-map") {
        Some(fill(map, row))
    } else if row.is("keep") {
        Some(copied(map, kept))
    } else if row.is("back") {
        Some(copied(kept, map))
    } else {
        taking::called(row, map, field)
    }
}

fn copied(from: &[u8], to: &mut [u8]) -> Answer {
    copy(from, to);
    Answer::whole(0, front(from, Map::SIZE as u64))
}
