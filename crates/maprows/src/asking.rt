// The calls that only read the map.
//
//     show ID COUNT = NUMBER PLACE LENGTH ANNOUNCED FRAMES UNKNOWN SHOWN
//     heard ID COUNT = NUMBER PLACE LENGTH WHOLE SHOWN
//     known COUNT = NUMBER ROW UNBROKEN COMPONENTS
//     list COUNT LENGTH = NUMBER NONE WHOLE UNFINISHED UNKNOWN MARKS    how many have each mark; 257 bytes of 9, so many of them lent
//     all COUNT = DIGEST                                                of list's marks, and of what is shown where they say whole
use crate::fields;
use faults::Refusal;
use faults::refusal::told;
use map::{Map, Span};
use rows::bytes::{Digest, front};
use rows::{Answer, Row};

pub fn called(row: Row, map: &[u8], field: &mut [u8]) -> Option<Answer> {
    if row.is("show") {
        Some(show(map, row.byte(0), row.byte(1)))
    } else if row.is("heard") {
        Some(heard(map, row.byte(0), row.byte(1)))
    } else if row.is("known") {
        Some(known(map, row.byte(0)))
    } else if row.is("list") {
        list(map, row.byte(0), row.values[1])
    } else if row.is("all") {
        Some(Answer::new(1, [all(map, row.byte(0)).into()]))
    } else {
        fields::called(row, field)
    }
}

// The part of the map that is shown, as far as the map goes.
fn part(map: &[u8], span: Span) -> &[u8] {
    match map.get(span.at..) {
        Some(rest) => front(rest, span.len as u64),
        None => map,
    }
}

fn show(map: &[u8], id: u8, count: u8) -> Answer {
    let answer = map::show(map, id, count);
    let shown = answer.unwrap_or_default();
    let span = shown.fields.unwrap_or_default();
    let fields = answer.and_then(|shown| shown.fields.ok_or(Refusal::Unfinished));
    Answer::new(
        2,
        [
            told(&fields).into(),
            span.at as u64,
            span.len as u64,
            shown.change.is_some().into(),
            shown.change.unwrap_or(0).into(),
            shown.unknown.into(),
            Digest::of(part(map, span)).into(),
        ],
    )
}

fn heard(map: &[u8], id: u8, count: u8) -> Answer {
    let answer = map::heard(map, id, count);
    let heard = answer.unwrap_or_default();
    Answer::new(
        2,
        [
            told(&answer).into(),
            heard.fields.at as u64,
            heard.fields.len as u64,
            heard.whole.into(),
            Digest::of(part(map, heard.fields)).into(),
        ],
    )
}

fn known(map: &[u8], count: u8) -> Answer {
    let answer = map::known(map, count);
    let known = answer.unwrap_or_default();
    Answer::new(
        1,
        [
            told(&answer).into(),
            known.row.into(),
            known.unbroken.into(),
            known.components as u64,
        ],
    )
}

// No call is made where more bytes are lent than there are.
fn list(map: &[u8], count: u8, len: u64) -> Option<Answer> {
    let mut out = [9u8; Map::IDS + 1];
    let answer = map::list(map, count, out.get_mut(..len as usize)?);
    Some(Answer::new(
        2,
        [
            told(&answer).into(),
            marked(&out, 0),
            marked(&out, 1),
            marked(&out, 2),
            marked(&out, 3),
            Digest::of(&out).into(),
        ],
    ))
}

// How many have a mark.
fn marked(marks: &[u8], mark: u8) -> u64 {
    marks.iter().filter(|each| **each == mark).count() as u64
}

fn all(map: &[u8], count: u8) -> Digest {
    let mut marks = [9u8; Map::IDS];
    let _refused = map::list(map, count, &mut marks);
    (0..=u8::MAX)
        .zip(&marks)
        .filter(|(_, mark)| **mark == 1)
        .fold(Digest::of(&marks), |digest, (id, _)| {
            let shown = map::show(map, id, count).unwrap_or_default();
            digest.over(part(map, shown.fields.unwrap_or_default()))
        })
}
