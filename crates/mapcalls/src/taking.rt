// The calls that may change the map. Each answers its number, or how many were refused, and the digest of the map.
//
//     start = NUMBER MAP
//     take COUNT FLAG ID LINKS FLN1 LLN1 FLN2 LLN2 FCP LCP = NUMBER MAP    a field written and taken in, or what refuses its writing
//     take-field LENGTH = NUMBER MAP                                      the field as it stands, of which so many bytes are lent
//     again TIMES = REFUSED MAP                                           the same field so many times more
//     idle FIRST TIMES = REFUSED MAP                                      frames with counts from FIRST on, with fields of no component
use faults::refusal::told;
use field::Field;
use maprows::{asking, fields};
use rows::bytes::front;
use rows::{Answer, Row};

pub fn called(row: Row, map: &mut [u8], field: &mut [u8]) -> Option<Answer> {
    if row.is("start") {
        Some(Answer::behind(0, told(&map::start(map)), map))
    } else if row.is("take") {
        Some(Answer::behind(10, sent(map, field, fields::of_row(row)), map))
    } else if row.is("take-field") {
        Some(Answer::behind(1, told(&map::take(map, front(field, row.values[0]))), map))
    } else if row.is("again") {
        Some(again(row, map, field))
    } else if row.is("idle") {
        Some(idle(row, map, field))
    } else {
        asking::called(row, map, field)
    }
}

// What the writer answers where it refuses, otherwise what the map does. The hint is for the loop of `idle`, where all but the frame count is
// known beforehand.
#[inline(always)]
fn sent(map: &mut [u8], bytes: &mut [u8], field: Field) -> u8 {
    let number = fields::put(field, Field::SIZE, bytes);
    if number != 0 {
        return number;
    }
    told(&map::take(map, front(bytes, Field::SIZE as u64)))
}

fn again(row: Row, map: &mut [u8], field: &[u8]) -> Answer {
    let mut refused = 0;
    for _ in 0..row.wide(0) {
        refused = counted(
            refused,
            told(&map::take(map, front(field, Field::SIZE as u64))),
        );
    }
    Answer::behind(1, refused, map)
}

// Panning vectors are no component's: they only bring the frame count. As a component's, line 5 to line 0 would be refused.
fn idle(row: Row, map: &mut [u8], bytes: &mut [u8]) -> Answer {
    let mut count = row.byte(0);
    let mut refused = 0;
    for _ in 0..row.wide(1) {
        refused = counted(refused, sent(map, bytes, panning(count)));
        count = count.wrapping_add(1);
    }
    Answer::behind(2, refused, map)
}

fn panning(count: u8) -> Field {
    Field {
        count,
        flag: 1,
        id: Field::PANNING,
        tdms: 5,
        links: 0,
    }
}

// One more where a number refuses.
fn counted(refused: u8, number: u8) -> u8 {
    refused.wrapping_add(u8::from(number != 0))
}
