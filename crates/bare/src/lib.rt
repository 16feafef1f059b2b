// The codes of ETS 300 352 as bare calls: numbers in, values or a refusal out. Every number is answered.
//
// kind    the four types of a packet
// code    what the calls are made of: words, remainder, the nearest word by the table
#![tactic(auto)]

ghost use Rattle.std.specs.Prelude.{◌≡◌, ◌%◌, ◌^◌, ◌<◌, ◌≤◌};
ghost use Rattle.bits.specs.Bits.{flips};
ghost use Rattle.golay.specs.Code.{word23, remainder, nearest};
ghost use Rattle.bare.specs.Bare.{header_read, header_within, header_written, word_read, word_written, Judged, type_read, type_written};
ghost use Rattle.bare.specs.Told.{told_header, told_word, told_type, told_number, told_kind};

use faults::Refusal;
pub use kind::Kind;

pub mod code;
pub mod kind;

// A header of 23 bits as it is read, and how many bits were flipped.
#[derive(Clone, Copy)]
pub struct Header {
    pub address: u16,
    pub index: u8,
    pub flips: u8,
}

// A word of 24 bits as it is read: its twelve bits of information, its flips.
#[derive(Clone, Copy)]
pub struct Word {
    pub information: u16,
    pub flips: u8,
}

// A type byte as it is read, and its flips.
#[derive(Clone, Copy)]
pub struct TypeByte {
    pub kind: Kind,
    pub flips: u8,
}

impl Header {
    // How many bits a header has, and how many headers, addresses and indices there are (4.3.6.1).
    pub const BITS: u32 = 23;

    pub const NUMBERS: u32 = 8388608;

    pub const ADDRESSES: u32 = 1024;

    pub const INDICES: u32 = 4;

    // How many flips are corrected at the most: each number of 23 bits lies that near to a word.
    pub const CORRECTED: u32 = 3;
}

impl Word {
    // How many numbers of 24 bits there are, how many informations, and how many flips are corrected.
    pub const NUMBERS: u32 = 16777216;

    pub const INFORMATIONS: u32 = 4096;

    pub const CORRECTED: u32 = 3;
}

impl TypeByte {
    // The house rule on flips.
    pub const CORRECTED: u32 = 2;
}

// 33: a header of 2^23 or more. Below it none is refused: each lies within three flips of a word. It is the reader below at 3, and is written
// out so that what is set up for a damaged header stands apart from both: a clean one is then read in a few steps.
pub fn read_header(n: u32) -> Result<Header, Refusal>
    ensures { told_header result ≡ header_read n }
{
    if Header::NUMBERS <= n {
        return Err(Refusal::TooLarge);
    }
    let rest = code::remainder(n);
    if rest == 0 {
        return Ok(header_of(n, n));
    }
    Ok(by_table(n, rest))
}

// 33: a header of 2^23 or more; 48: a setting above 3; 49: more flips than the setting.
pub fn read_header_within(n: u32, most: u32) -> Result<Header, Refusal>
    ensures { told_header result ≡ header_within n most }
{
    if Header::NUMBERS <= n {
        return Err(Refusal::TooLarge);
    }
    if Header::CORRECTED < most {
        return Err(Refusal::Setting);
    }
    let rest = code::remainder(n);
    if rest == 0 {
        return Ok(header_of(n, n));
    }
    let header = by_table(n, rest);
    if most < header.flips as u32 {
        return Err(Refusal::BeyondSetting);
    }
    Ok(header)
}

// The nearest header by the constant table of patterns, which is set up for it, and the remainder.
fn by_table(n: u32, rest: u32) -> Header
    requires n_bound { n < 2 ^ 23 }
    requires rest_value { rest ≡ remainder n }
    ensures { told_header (Ok result) ≡ header_read n }
{
    let patterns = lookup::patterns();
    header_of(n, code::corrected(&patterns, n, rest))
}

// The same for 23 bits that are in hand, as an image has them, by the rows: nothing is set up, and the rows have the flips too. A clean one
// is read as it stands and needs no row.
pub fn near_header(n: u32) -> Header
    requires { n < 2 ^ 23 }
    ensures { told_header (Ok result) ≡ header_read n }
{
    let left = code::remainder(n);
    if left == 0 {
        return header_of(n, n);
    }
    let entry = fours::entry(left);
    let i = n % Word::INFORMATIONS ^ entry % Word::INFORMATIONS;
    Header {
        address: (i % Header::ADDRESSES) as u16,
        index: (i / Header::ADDRESSES) as u8,
        flips: (entry / Word::INFORMATIONS) as u8,
    }
}

// The header that 23 bits are read as, once the nearest word is known.
fn header_of(n: u32, word: u32) -> Header
    requires n_bound { n < 2 ^ 23 }
    requires word_value { word ≡ word23 (nearest word23 n) }
    ensures { told_header (Ok result) ≡ header_read n }
{
    Header {
        address: (word % Header::ADDRESSES) as u16,
        index: (word / Header::ADDRESSES % Header::INDICES) as u8,
        flips: u32::count_ones(n ^ word) as u8,
    }
}

// 33: an address above 1,023, an index above 3.
pub fn write_header(address: u32, index: u32) -> Result<u32, Refusal>
    ensures { told_number result ≡ header_written address index }
{
    if Header::ADDRESSES <= address {
        return Err(Refusal::TooLarge);
    }
    if Header::INDICES <= index {
        return Err(Refusal::TooLarge);
    }
    Ok(code::header_word(address + Header::ADDRESSES * index))
}

// 33: a word of 2^24 or more; 31: no word lies within three flips.
pub fn read_word(n: u32) -> Result<Word, Refusal>
    ensures { told_word result ≡ word_read n }
{
    if Word::NUMBERS <= n {
        return Err(Refusal::TooLarge);
    }
    let word = judged(n);
    let flips = word / Word::INFORMATIONS;
    if Word::CORRECTED < flips {
        return Err(Refusal::WordUnreadable);
    }
    Ok(Word {
        information: (word % Word::INFORMATIONS) as u16,
        flips: flips as u8,
    })
}

// What 24 bits are read as, as one number, which needs no memory: as they stand where the check bits are right, otherwise by
// the rows.
pub fn judged(n: u32) -> u32
    requires { n < 2 ^ 24 }
    ensures { Judged n result }
{
    let i = n % Word::INFORMATIONS;
    let wrong = lookup::check(i) ^ n / Word::INFORMATIONS;
    if wrong == 0 {
        return i;
    }
    damaged(n, wrong % 2048)
}

// The same by the remainder of the first 23 bits: the information nearest to them, and how many of them are flipped. All 24 bits of a word
// have odd parity, so the parity bit is flipped too where the ones and the flips together are even.
fn damaged(n: u32, r: u32) -> u32
    requires n_bound { n < 2 ^ 24 }
    requires r_value { r ≡ remainder (n % 2 ^ 23) }
    ensures { Judged n result }
{
    let near = n % Word::INFORMATIONS ^ fours::entry(r);
    let even = (u32::count_ones(n) + near / Word::INFORMATIONS + 1) % 2;
    near + even * Word::INFORMATIONS
}

// 33: an information of 4,096 or more.
pub fn write_word(information: u32) -> Result<u32, Refusal>
    ensures { told_number result ≡ word_written information }
{
    if Word::INFORMATIONS <= information {
        return Err(Refusal::TooLarge);
    }
    Ok(code::data_word(information))
}

// In how many bits two bytes differ.
fn turned(value: u8, byte: u8) -> u32
    ensures { result ≡ flips value byte }
{
    u8::count_ones(value ^ byte)
}

// 28: no type lies within two flips.
pub fn read_type(byte: u8) -> Result<TypeByte, Refusal>
    ensures { told_type result ≡ type_read byte }
{
    for kind in Kind::ALL {
        let flips = turned(kind.into(), byte);
        if flips <= TypeByte::CORRECTED {
            return Ok(TypeByte {
                kind,
                flips: flips as u8,
            });
        }
    }
    Err(Refusal::TypeUnreadable)
}

// 28: not one of the four values; nothing is corrected on writing.
pub fn write_type(byte: u8) -> Result<Kind, Refusal>
    ensures { told_kind result ≡ type_written byte }
{
    Kind::try_from(byte)
}
