// The bare calls, one by one, and the digest of many.
//
//     read-header N = NUMBER ADDRESS INDEX FLIPS     write-header ADDRESS INDEX = NUMBER HEADER
//     read-header-within N MOST = NUMBER ADDRESS INDEX FLIPS, and the same of read-header-plain
//     read-word N = NUMBER INFORMATION FLIPS         write-word N = NUMBER WORD
//     read-type N = NUMBER VALUE FLIPS               write-type N = NUMBER VALUE
//     many CALL FIRST STEP TIMES = DIGEST            of what a call answers of FIRST, FIRST + STEP, ..
//
// The calls are read-header 0, write-header 1, read-word 2, write-word 3, read-type 4, write-type 5, read-header-within 6,
// read-header-plain 7. Of many, a header to be written is one number: its address, and 1,024 for each index; and one to be read at a setting,
// by either reader: the header, and 2^23 for each flip of the setting. Their digest goes over the numbers of each answer, four of them and
// four bytes a number, lowest first.
ghost use Rattle.std.specs.Prelude.{◌<◌, ◌≤◌};

use bare::Header;
use faults::Refusal;
use rows::bytes::Digest;
use rows::{Answer, Row};

#[derive(Clone, Copy)]
enum Call {
    ReadHeader,
    WriteHeader,
    ReadWord,
    WriteWord,
    ReadType,
    WriteType,
    ReadHeaderWithin,
    ReadHeaderPlain,
}

// In the order of their numbers.
const CALLS: [(&str, Call); 8] = [
    ("read-header", Call::ReadHeader),
    ("write-header", Call::WriteHeader),
    ("read-word", Call::ReadWord),
    ("write-word", Call::WriteWord),
    ("read-type", Call::ReadType),
    ("write-type", Call::WriteType),
    ("read-header-within", Call::ReadHeaderWithin),
    ("read-header-plain", Call::ReadHeaderPlain),
];

pub fn called(row: Row) -> Option<Answer> {
    if row.is("many") {
        return Some(Answer::new(4, [many(row).into()]));
    }
    let (_, call) = CALLS.iter().find(|(name, _)| row.is(name))?;
    Some(call.answered(row.wide(0), row.wide(1)))
}

impl Call {
    fn answered(self, n: u32, second: u32) -> Answer {
        match self {
            Self::ReadHeader => header(1, bare::read_header(n)),
            Self::WriteHeader => written(2, bare::write_header(n, second)),
            Self::ReadWord => word(n),
            Self::WriteWord => written(1, bare::write_word(n)),
            Self::ReadType => kind((n % 256) as u8),
            Self::WriteType => written(
                1,
                bare::write_type((n % 256) as u8).map(|kind| u8::from(kind).into()),
            ),
            Self::ReadHeaderWithin => header(2, bare::read_header_within(n, second)),
            Self::ReadHeaderPlain => header(2, plain::read_header(n, second)),
        }
    }

    // The same of one number.
    fn answered_one(self, n: u32) -> Answer {
        match self {
            Self::WriteHeader => self.answered(n % Header::ADDRESSES, n / Header::ADDRESSES),
            Self::ReadHeaderWithin | Self::ReadHeaderPlain => {
                self.answered(n % Header::NUMBERS, n / Header::NUMBERS)
            }
            _ => self.answered(n, 0),
        }
    }
}

fn header(args: usize, read: Result<Header, Refusal>) -> Answer {
    told(
        args,
        read.map(|header| {
            [
                0,
                header.address.into(),
                header.index.into(),
                header.flips.into(),
            ]
        }),
    )
}

fn word(n: u32) -> Answer {
    let read = bare::read_word(n);
    told(
        1,
        read.map(|word| [0, word.information.into(), word.flips.into()]),
    )
}

fn kind(byte: u8) -> Answer {
    let read = bare::read_type(byte);
    told(
        1,
        read.map(|read| [0, u8::from(read.kind).into(), read.flips.into()]),
    )
}

fn written(args: usize, written: Result<u32, Refusal>) -> Answer {
    told(args, written.map(|value| [0, value.into()]))
}

// The number 0 and values; or a refusal's number, with 0 for every value.
fn told<const N: usize>(args: usize, values: Result<[u64; N], Refusal>) -> Answer
    requires some { 0 < N }
    requires room { N ≤ 8 }
{
    Answer::new(args, values.unwrap_or_else(refused))
}

fn refused<const N: usize>(refusal: Refusal) -> [u64; N]
    requires { 0 < N }
{
    let mut values = [0; N];
    values[0] = u8::from(refusal).into();
    values
}

// Of a number that is no call's, no numbers come, which are 0.
fn many(row: Row) -> Digest {
    let call = CALLS.get(row.byte(0) as usize).map(|(_, call)| *call);
    let mut n = row.wide(1);
    let mut digest = Digest::START;
    for _ in 0..row.wide(3) {
        let values = call.map_or([0; 8], |call| call.answered_one(n).values);
        digest = with_four(digest, values);
        n = n.wrapping_add(row.wide(2));
    }
    digest
}

fn with_four(digest: Digest, values: [u64; 8]) -> Digest {
    values[..4].iter().fold(digest, |digest, n| {
        digest.over(&((*n % Row::WIDE) as u32).to_le_bytes())
    })
}
