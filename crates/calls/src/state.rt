// The calls on a state. Those that may change it answer their number and the digest of the state, ask and board text their number, the
// length of what they show and its digest.
//
//     start = NUMBER STATE                   follow ADDRESS PROTECTION LIMIT = NUMBER STATE
//     leave ADDRESS = NUMBER STATE           end = NUMBER STATE
//     set-header-flips MOST = NUMBER STATE
//     packet IMAGE LENGTH = NUMBER STATE     an image, 0 to 3, of which so many bytes are lent
//     detail IMAGE LENGTH = NUMBER DETAIL CAME STATE       the same with what the number carries
//     ask ADDRESS = NUMBER PLACE LENGTH SHOWN
//     board ADDRESS LENGTH = NUMBER LENGTH SHOWN           so many bytes of the message are the notice
//     write ADDRESS PROTECTION LENGTH OUTPUT = NUMBER IMAGES    so many bytes of the message and of the images are lent
use coderows::images;
use faults::refusal::told;
use head::Wish;
use rows::bytes::{Digest, front};
use rows::{Answer, Row};

pub fn called(row: Row, state: &mut [u8], images: &mut [u8], message: &mut [u8]) -> Option<Answer> {
    if row.is("start") {
        Some(Answer::behind(0, told(&table::start(state)), state))
    } else if row.is("follow") {
        Some(follow(row, state))
    } else if row.is("leave") {
        Some(Answer::behind(1, told(&table::leave(state, row.wide(0))), state))
    } else if row.is("end") {
        Some(Answer::behind(0, told(&table::subframe_end(state)), state))
    } else if row.is("packet") {
        Some(packet(row, state, images))
    } else if row.is("ask") {
        Some(ask(row, state))
    } else if row.is("board") {
        Some(board(row, state, message))
    } else if row.is("write") {
        write(row, images, message)
    } else if row.is("set-header-flips") {
        Some(Answer::behind(1, told(&table::set_header_flips(state, row.wide(0))), state))
    } else if row.is("detail") {
        Some(detail(row, state, images))
    } else {
        images::called(row, images, message)
    }
}

fn follow(row: Row, state: &mut [u8]) -> Answer {
    let wish = Wish::new(row.wide(0), row.wide(1), row.wide(2));
    let answer = table::follow(state, wish);
    Answer::behind(3, told(&answer), state)
}

fn packet(row: Row, state: &mut [u8], images: &[u8]) -> Answer {
    let number = adapter::packet(state, image(row, images));
    Answer::behind(2, number, state)
}

fn detail(row: Row, state: &mut [u8], images: &[u8]) -> Answer {
    let answer = adapter::answered(state, image(row, images));
    Answer::new(
        2,
        [
            answer.number.into(),
            answer.detail.into(),
            answer.came.into(),
            Digest::of(state).into(),
        ],
    )
}

// The image that a row names, and as many of its bytes as it lends.
fn image(row: Row, images: &[u8]) -> &[u8] {
    let from = (row.values[0] % 4) as usize * 94;
    match images.get(from..) {
        Some(rest) => front(rest, row.values[1]),
        None => &[],
    }
}

fn ask(row: Row, state: &[u8]) -> Answer {
    let address = row.wide(0);
    let answer = asking::answer(state, address);
    let at = match answer {
        Ok(Some(shown)) => shown.at,
        Ok(None) | Err(_) => 0,
    };
    let part = match asking::ask(state, address) {
        Ok(Some((_, part))) => part,
        Ok(None) | Err(_) => &[],
    };
    shown(1, asking::told(answer), at, part)
}

fn board(row: Row, state: &[u8], message: &[u8]) -> Answer {
    let notice = front(message, row.values[1]);
    let (answer, text) = asking::board_text(state, row.wide(0), notice);
    let number = match answer {
        Ok(Some(freshness)) => freshness.into(),
        Ok(None) => 4,
        Err(refusal) => refusal.into(),
    };
    shown(2, number, 0, text)
}

fn shown(args: usize, number: u8, at: usize, part: &[u8]) -> Answer {
    Answer::new(
        args,
        [
            number.into(),
            at as u64,
            part.len() as u64,
            Digest::of(part).into(),
        ],
    )
}

// No call is made where more bytes of the images are lent than there are.
fn write(row: Row, images: &mut [u8], message: &[u8]) -> Option<Answer> {
    let out = images.get_mut(..row.values[3] as usize)?;
    let written = adapter::write::group(
        row.wide(0),
        row.wide(1),
        front(message, row.values[2]),
        out,
    );
    Some(Answer::behind(4, told(&written), images))
}
