// Images made of the message, and what the first image is received as.
//
//     image ADDRESS INDEX TYPE = NUMBER IMAGES    the first image becomes that of the message's first 90 bytes
//     protect = MESSAGE                           the message's first 45 bytes become the 90 that protect them
//     received PROTECTION LENGTH = NUMBER PLACE INDEX BYTES    so many bytes of the images are lent
use crate::codes;
use image::Packet;
use rows::bytes::{Digest, copy, front};
use rows::{Answer, Row};
use words::Data;

pub fn called(row: Row, images: &mut [u8], message: &mut [u8]) -> Option<Answer> {
    if row.is("image") {
        Some(image(row, images, message))
    } else if row.is("protect") {
        Some(protect(message))
    } else if row.is("received") {
        Some(received(row, images))
    } else {
        codes::called(row)
    }
}

fn image(row: Row, images: &mut [u8], message: &[u8]) -> Answer {
    let mut useful = [0u8; Packet::USEFUL];
    copy(message, &mut useful);
    let mut image = [0u8; Packet::IMAGE];
    packet::write(
        row.wide(0) % 1024,
        row.wide(1) % 4,
        row.byte(2),
        &useful,
        &mut image,
    );
    copy(&image, images);
    Answer::whole(3, images)
}

fn protect(message: &mut [u8]) -> Answer {
    let mut data = [0u8; Data::BYTES];
    copy(message, &mut data);
    let useful = words::protect(&data);
    copy(&useful, message);
    Answer::whole(0, message)
}

fn received(row: Row, images: &[u8]) -> Answer {
    let values = match packet::received(row.values[0] == 1, front(images, row.values[1])) {
        Ok(reading) => [
            0,
            0,
            reading.index.into(),
            Digest::of(&reading.bytes).into(),
        ],
        Err(unread) => [
            u8::from(unread.refusal).into(),
            unread.place.into(),
            0,
            Digest::of(&[0u8; Packet::USEFUL]).into(),
        ],
    };
    Answer::new(2, values)
}
