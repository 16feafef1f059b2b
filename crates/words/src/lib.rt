// Protected data (7.4.2.1, 8.3.2): 90 bytes are thirty words, 45 bytes are thirty informations of twelve bits.
#![tactic(auto)]

ghost use Rattle.std.specs.Prelude.{◌≡◌, map, ℕ, ◌<◌, length, get_or, IfErr};
ghost use Rattle.bits.specs.Bits.{sent, numbers_in};
ghost use Rattle.golay.specs.Code.{word24};
ghost use Rattle.words.specs.Protected.{protected, words_of, data_of, data_read, words_read};
ghost use Rattle.words.specs.Told.{told_words, told_data};

use bare::Word;

// What 90 protected bytes are read as: the flips of all words, and the 45 bytes.
#[derive(Clone, Copy)]
pub struct Data {
    pub flips: u8,
    pub bytes: [u8; Data::BYTES],
}

// What the words are read as: the flips of all, and their informations.
#[derive(Clone, Copy)]
pub struct Words {
    pub flips: u8,
    pub informations: [u16; Words::COUNT],
}

// The place of the first word that cannot be read.
#[derive(Clone, Copy)]
pub struct Unreadable {
    pub place: u8,
}

impl Words {
    // How many words there are in a packet, and pairs of them: two informations are three bytes.
    pub const COUNT: usize = 30;

    pub const PAIRS: usize = Self::COUNT / 2;

    // A word is three bytes.
    pub const BYTES: usize = 3 * Self::COUNT;
}

impl Data {
    pub const BYTES: usize = 3 * Words::PAIRS;
}

// What 90 protected bytes are read as.
pub fn unprotect(useful: &[u8]) -> Result<Data, Unreadable>
    requires { length useful.now ≡ 90 }
    ensures value { told_data result ≡ data_read useful.now }
    ensures place { IfErr result (λ e. e.place < 30) }
{
    let words = read(useful)?;
    let informations = words.informations;
    Ok(Data {
        flips: words.flips,
        bytes: gathered(informations),
    })
}

// Word w of 90 bytes: three bytes, lowest first. With `from_le_bytes` the compiler loads each byte alone.
fn word(useful: &[u8], w: usize) -> u32
    requires useful_len { length useful.now ≡ 90 }
    requires w_bound { w < 30 }
    ensures { result ≡ get_or (words_of useful.now) w 0 }
{
    let at = w * 3;
    useful[at] as u32 | (useful[at + 1] as u32) << 8 | (useful[at + 2] as u32) << 16
}

// The words one by one, up to the first that cannot be read.
fn read(useful: &[u8]) -> Result<Words, Unreadable>
    requires { length useful.now ≡ 90 }
    ensures value { told_words result ≡ words_read (words_of useful.now) }
    ensures place { IfErr result (λ e. e.place < 30) }
{
    let mut flips: u8 = 0;
    let mut informations = [0u16; Words::COUNT];
    for w in 0..Words::COUNT {
        let one = bare::judged(word(useful, w));
        let turned = one / Word::INFORMATIONS;
        if Word::CORRECTED < turned {
            return Err(Unreadable { place: w as u8 });
        }
        flips = flips + turned as u8;
        informations[w] = (one % Word::INFORMATIONS) as u16;
    }
    Ok(Words {
        flips,
        informations,
    })
}

// The 45 bytes of thirty informations: two informations are three bytes.
fn gathered(informations: [u16; Words::COUNT]) -> [u8; Data::BYTES]
    requires { (k : ℕ) → get_or informations k 0 < 4096 }
    ensures { result ≡ data_of informations }
{
    let mut bytes = [0u8; Data::BYTES];
    for v in 0..Words::PAIRS {
        let a = informations[v * 2];
        let b = informations[v * 2 + 1];
        bytes[v * 3] = (a & 255) as u8;
        bytes[v * 3 + 1] = (a >> 8) as u8 | ((b & 15) << 4) as u8;
        bytes[v * 3 + 2] = (b >> 4) as u8;
    }
    bytes
}

// The 90 protected bytes of 45.
pub fn protect(bytes: &[u8]) -> [u8; Words::BYTES]
    requires { length bytes.now ≡ 45 }
    ensures { result ≡ protected bytes.now }
{
    coded(segments(bytes))
}

// Each successive 12-bit segment of 45 bytes: three bytes are two segments.
fn segments(bytes: &[u8]) -> [u16; Words::COUNT]
    requires { length bytes.now ≡ 45 }
    ensures { result ≡ numbers_in 12 30 (sent 8 bytes.now) }
{
    let mut informations = [0u16; Words::COUNT];
    for v in 0..Words::PAIRS {
        let a = bytes[v * 3] as u16;
        let b = bytes[v * 3 + 1] as u16;
        let c = bytes[v * 3 + 2] as u16;
        informations[v * 2] = a | (b & 15) << 8;
        informations[v * 2 + 1] = b >> 4 | c << 4;
    }
    informations
}

// The words of thirty informations, three bytes each.
fn coded(informations: [u16; Words::COUNT]) -> [u8; Words::BYTES]
    requires { (k : ℕ) → get_or informations k 0 < 4096 }
    ensures { result ≡ numbers_in 8 90 (sent 24 (map word24 informations)) }
{
    let mut useful = [0u8; Words::BYTES];
    for w in 0..Words::COUNT {
        let n = bare::code::data_word(informations[w] as u32);
        useful[w * 3] = (n & 255) as u8;
        useful[w * 3 + 1] = (n >> 8 & 255) as u8;
        useful[w * 3 + 2] = (n >> 16) as u8;
    }
    useful
}
