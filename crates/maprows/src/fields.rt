// A field of TDM control and its six numbers, read and written.
//
//     write COUNT FLAG ID TDMS LINKS OUTPUT = NUMBER FIELD       so many bytes of the field are lent as the output
//     read LENGTH = NUMBER COUNT FLAG ID TDMS LINKS              so many bytes of the field are lent
//     pack FLN1 LLN1 FLN2 LLN2 FCP LCP = NUMBER TDMS
//     unpack TDMS = NUMBER FLN1 LLN1 FLN2 LLN2 FCP LCP
ghost use Rattle.std.specs.Prelude.{◌<◌};

use faults::Refusal;
use faults::refusal::told;
use field::{Field, Tdms};
use rows::bytes::front;
use rows::{Answer, Row};

// What a row answers where more bytes are lent than there are, which no call answers. It stays a number, as rows print it.
const TOO_MANY: u8 = 99;

pub fn called(row: Row, bytes: &mut [u8]) -> Option<Answer> {
    if row.is("write") {
        Some(write(row, bytes))
    } else if row.is("read") {
        Some(read(row, bytes))
    } else if row.is("pack") {
        Some(pack(row))
    } else if row.is("unpack") {
        Some(unpack(row))
    } else {
        None
    }
}

// The first bytes of a field become a written one. The hint is for `mapcalls`' row `idle`, which writes fields in a loop with all but the frame
// count known beforehand.
#[inline(always)]
pub fn put(field: Field, out: usize, bytes: &mut [u8]) -> u8 {
    match bytes.get_mut(..out) {
        Some(room) => told(&field::write(field, room)),
        None => TOO_MANY,
    }
}

fn write(row: Row, bytes: &mut [u8]) -> Answer {
    let field = Field {
        count: row.byte(0),
        flag: row.byte(1),
        id: row.byte(2),
        tdms: row.values[3],
        links: row.byte(4),
    };
    let number = put(field, row.values[5] as usize, bytes);
    Answer::behind(6, number, bytes)
}

fn read(row: Row, bytes: &[u8]) -> Answer {
    let answer = field::read(front(bytes, row.values[0]));
    let field = answer.unwrap_or_default();
    Answer::new(
        1,
        [
            told(&answer).into(),
            field.count.into(),
            field.flag.into(),
            field.id.into(),
            field.tdms,
            field.links.into(),
        ],
    )
}

// The field that a row spells with six numbers behind four others; one that is too wide makes the structure 0.
pub fn of_row(row: Row) -> Field {
    Field {
        count: row.byte(0),
        flag: row.byte(1),
        id: row.byte(2),
        tdms: packed(row, 4).unwrap_or(0),
        links: row.byte(3),
    }
}

fn pack(row: Row) -> Answer {
    let answer = packed(row, 0);
    Answer::new(6, [told(&answer).into(), answer.unwrap_or(0)])
}

// The structure of a row's six numbers, from a place on.
fn packed(row: Row, from: usize) -> Result<u64, Refusal>
    requires { from < 19 }
{
    let six = Tdms {
        fln1: row.wide(from),
        lln1: row.wide(from + 1),
        fln2: row.wide(from + 2),
        lln2: row.wide(from + 3),
        fcp: row.wide(from + 4),
        lcp: row.wide(from + 5),
    };
    field::pack(six)
}

fn unpack(row: Row) -> Answer {
    let answer = field::unpack(row.values[0]);
    let six = answer.unwrap_or_default();
    Answer::new(
        1,
        [
            told(&answer).into(),
            six.fln1.into(),
            six.lln1.into(),
            six.fln2.into(),
            six.lln2.into(),
            six.fcp.into(),
            six.lcp.into(),
        ],
    )
}
