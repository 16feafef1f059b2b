// What a row does to bytes by hand, and the digest of bytes.
use crate::{Answer, Row};

// FNV-1a of 32 bits.
#[derive(Clone, Copy, PartialEq, Eq)]
pub struct Digest(u32);

impl Digest {
    // Of no bytes.
    pub const START: Self = Self(0x811C9DC5);

    const PRIME: u32 = 0x01000193;

    pub fn of(bytes: &[u8]) -> Self {
        Self::START.over(bytes)
    }

    // With one byte more.
    pub fn with(self, byte: u8) -> Self {
        Self((self.0 ^ u32::from(byte)).wrapping_mul(Self::PRIME))
    }

    // With a list of bytes more.
    pub fn over(self, bytes: &[u8]) -> Self {
        bytes.iter().fold(self, |digest, byte| digest.with(*byte))
    }

    // As a row's name. One whose digest is 0 counts as none, as what is printed may not change.
    pub fn as_name(self) -> Option<Self> {
        if self.0 == 0 { None } else { Some(self) }
    }
}

impl From<Digest> for u64 {
    fn from(digest: Digest) -> Self {
        Self::from(digest.0)
    }
}

// The first bytes, or all where there are not so many.
pub fn front(bytes: &[u8], len: u64) -> &[u8] {
    bytes.get(..len as usize).unwrap_or(bytes)
}

// Copies as many bytes as there are, and as there is room for.
pub fn copy(from: &[u8], to: &mut [u8]) {
    for (place, byte) in to.iter_mut().zip(from) {
        *place = *byte;
    }
}

// Sets every byte: from, from + step, from + 2 step, ..
pub fn fill(bytes: &mut [u8], row: Row) -> Answer {
    let step = row.byte(1);
    let mut next = row.byte(0);
    for byte in bytes.iter_mut() {
        *byte = next;
        next = next.wrapping_add(step);
    }
    Answer::whole(2, bytes)
}

// Puts bytes in a row from a place on.
pub fn put(bytes: &mut [u8], row: Row) -> Answer {
    let values = row.values.iter().take(row.args).skip(1);
    for (byte, value) in bytes.iter_mut().skip(row.wide(0) as usize).zip(values) {
        *byte = (*value % Row::BYTE) as u8;
    }
    Answer::whole(row.args, bytes)
}

// Turns bits over, counted from one.
pub fn turn(bytes: &mut [u8], row: Row) -> Answer {
    let from = u64::from(row.wide(0));
    for value in row.values.iter().take(row.args).skip(1) {
        let bit = from + *value % Row::WIDE;
        if let Some(byte) = bytes.get_mut((bit / 8) as usize) {
            *byte ^= 1 << (bit % 8);
        }
    }
    Answer::whole(row.args, bytes)
}
