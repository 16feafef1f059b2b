// The calls that C and Rust link. Each gives back a number, 0 or a refusal's, and hands its values over through what is
// lent to it. Every call is answered, whatever it is given.
//
// calls    the calls on a state, and the group writer
#![tactic(auto)]

ghost use Rattle.std.specs.Prelude.{◌≡◌};
ghost use Rattle.bare.specs.Bare.{header_read, header_within, header_written, word_read, word_written, type_read, type_written};
ghost use Rattle.bare.specs.Told.{told_header};
ghost use Rattle.plain.specs.Plain.{header_plain};
ghost use Rattle.feed.specs.Fed.{values, fed};

use bare::Header;
use faults::Refusal;
use faults::refusal::told;
use image::Packet;

pub mod calls;

// 33: a header of 2^23 or more.
#[unsafe(no_mangle)]
pub extern "C" fn feed_read_header(n: u32, address: &mut u16, index: &mut u8, flips: &mut u8) -> u8
    ensures value { result ≡ (header_read n).number }
    ensures address_after { address.new ≡ (header_read n).address }
    ensures index_after { index.new ≡ (header_read n).index }
    ensures flips_after { flips.new ≡ (header_read n).flips }
{
    hand(bare::read_header(n), address, index, flips)
}

// 33: a header of 2^23 or more; 48: a setting above 3; 49: more flips than the setting.
#[unsafe(no_mangle)]
pub extern "C" fn feed_read_header_within(
    n: u32,
    most: u32,
    address: &mut u16,
    index: &mut u8,
    flips: &mut u8,
) -> u8
    ensures value { result ≡ (header_within n most).number }
    ensures address_after { address.new ≡ (header_within n most).address }
    ensures index_after { index.new ≡ (header_within n most).index }
    ensures flips_after { flips.new ≡ (header_within n most).flips }
{
    hand(bare::read_header_within(n, most), address, index, flips)
}

// The same without a table: the error patterns themselves are tried, fewest flips first.
#[unsafe(no_mangle)]
pub extern "C" fn feed_read_header_plain(
    n: u32,
    most: u32,
    address: &mut u16,
    index: &mut u8,
    flips: &mut u8,
) -> u8
    ensures value { result ≡ (header_plain n most).number }
    ensures address_after { address.new ≡ (header_plain n most).address }
    ensures index_after { index.new ≡ (header_plain n most).index }
    ensures flips_after { flips.new ≡ (header_plain n most).flips }
{
    hand(plain::read_header(n, most), address, index, flips)
}

// What was read of a header, handed over; 0 for a refused one.
fn hand(answer: Result<Header, Refusal>, address: &mut u16, index: &mut u8, flips: &mut u8) -> u8
    ensures value { result ≡ (told_header answer).number }
    ensures address_after { address.new ≡ (told_header answer).address }
    ensures index_after { index.new ≡ (told_header answer).index }
    ensures flips_after { flips.new ≡ (told_header answer).flips }
{
    (*address, *index, *flips) = match answer {
        Ok(header) => (header.address, header.index, header.flips),
        Err(_) => (0, 0, 0),
    };
    told(&answer)
}

// 33: an address above 1,023, an index above 3.
#[unsafe(no_mangle)]
pub extern "C" fn feed_write_header(address: u32, index: u32, header: &mut u32) -> u8
    ensures value { result ≡ (header_written address index).number }
    ensures header_after { header.new ≡ (header_written address index).value }
{
    let written = bare::write_header(address, index);
    *header = written.unwrap_or(0);
    told(&written)
}

// 33: a word of 2^24 or more; 31: no word lies within three flips.
#[unsafe(no_mangle)]
pub extern "C" fn feed_read_word(n: u32, information: &mut u16, flips: &mut u8) -> u8
    ensures value { result ≡ (word_read n).number }
    ensures information_after { information.new ≡ (word_read n).information }
    ensures flips_after { flips.new ≡ (word_read n).flips }
{
    let word = bare::read_word(n);
    (*information, *flips) = match word {
        Ok(word) => (word.information, word.flips),
        Err(_) => (0, 0),
    };
    told(&word)
}

// 33: an information of 4,096 or more.
#[unsafe(no_mangle)]
pub extern "C" fn feed_write_word(information: u32, word: &mut u32) -> u8
    ensures value { result ≡ (word_written information).number }
    ensures word_after { word.new ≡ (word_written information).value }
{
    let written = bare::write_word(information);
    *word = written.unwrap_or(0);
    told(&written)
}

// 28: no type lies within two flips.
#[unsafe(no_mangle)]
pub extern "C" fn feed_read_type(byte: u8, value: &mut u8, flips: &mut u8) -> u8
    ensures value { result ≡ (type_read byte).number }
    ensures value_after { value.new ≡ (type_read byte).value }
    ensures flips_after { flips.new ≡ (type_read byte).flips }
{
    let read = bare::read_type(byte);
    (*value, *flips) = match read {
        Ok(read) => (read.kind.into(), read.flips),
        Err(_) => (0, 0),
    };
    told(&read)
}

// 28: not one of the four types.
#[unsafe(no_mangle)]
pub extern "C" fn feed_write_type(byte: u8, value: &mut u8) -> u8
    ensures value { result ≡ (type_written byte).number }
    ensures value_after { value.new ≡ (type_written byte).value }
{
    let written = bare::write_type(byte);
    *value = match written {
        Ok(kind) => kind.into(),
        Err(_) => 0,
    };
    told(&written)
}

// 20: the room for the bytes is not 90 long; 23: protection neither 0, plain, nor 1, protected. Nothing is changed then.
// Otherwise as the packet is received: 20, 28, 29, 47, 30, 31.
#[unsafe(no_mangle)]
pub extern "C" fn feed_received(
    protection: u8,
    image: &[u8],
    place: &mut u8,
    index: &mut u8,
    bytes: &mut [u8],
) -> u8
    ensures { values result place.new index.new bytes.new
        ≡ fed protection image.now (values 0 place.old index.old bytes.old) }
{
    if bytes.len() != Packet::USEFUL {
        return Refusal::Length.into();
    }
    if 1 < protection {
        return Refusal::Protection.into();
    }
    match packet::received(protection == 1, image) {
        Ok(reading) => {
            let from = reading.bytes;
            *place = 0;
            *index = reading.index;
            runs::copy(bytes, 0, &from);
            0
        }
        Err(unread) => {
            *place = unread.place;
            *index = 0;
            runs::clear(bytes);
            unread.refusal.into()
        }
    }
}
