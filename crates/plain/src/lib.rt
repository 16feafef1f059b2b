// The plain header reader: a header of 23 bits read without a table, for those who want to see on one page how it is done. It tries the
// error patterns themselves, fewest flips first, and takes the first that leaves a word of the code of ETS 300 352, 4.3.6.1.3.
//
// Bit k is the one that is sent as number k, from 0, and has weight 2^k: bits 0 to 9 are the address, 10 and 11 the index, 12 to 22 the
// protection suffix. A pattern is a number too: its ones are the bits that are flipped. Nothing outside this page is called; from the
// table reader it has the struct `Header`, three numbers, with its bounds, and the refusals are `faults`'. docs/APPROVAL.md says what is
// proved of it. It assumes nothing of what it is given. One, two and three flips are three searches and not one that calls itself: the
// page is read by those who want no recursion.
#![tactic(auto)]

ghost use Rattle.std.specs.Prelude.{◌≡◌, ◌/◌, ◌%◌, ◌^◌, ◌≤◌, ◌<◌, IfSome};
ghost use Rattle.golay.specs.Code.{remainder};
ghost use Rattle.bare.specs.Told.{told_header};
ghost use Rattle.plain.specs.Plain.{error_patterns, leaving, header_plain, pattern_of};

use bare::Header;
use faults::Refusal;

// G(x) = x^11 + x^10 + x^6 + x^5 + x^4 + x^2 + 1, the highest power sent first, so that x^11 has weight 1 and x^0 weight 2^11.
const GENERATOR: u32 = 1 + 2 + 32 + 64 + 128 + 512 + 2048;

// Reads a header, correcting at most so many flips. 33: a header of 2^23 or more; 48: a setting above 3; 49: no word lies within as many
// flips as the setting.
pub fn read_header(n: u32, most: u32) -> Result<Header, Refusal>
    ensures { told_header result ≡ header_plain n most }
{
    if Header::NUMBERS <= n {
        return Err(Refusal::TooLarge);
    }
    if Header::CORRECTED < most {
        return Err(Refusal::Setting);
    }
    for flips in 0..most + 1 {
        if let Some(pattern) = flipped(n, flips) {
            return Ok(header(n ^ pattern, flips));
        }
    }
    Err(Refusal::BeyondSetting)
}

// The address and the index of a word, beside the flips.
fn header(word: u32, flips: u32) -> Header
    requires { flips ≤ 3 }
    ensures { result ≡ record { address = word % 1024; index = word / 1024 % 4; flips = flips } }
{
    Header {
        address: (word % Header::ADDRESSES) as u16,
        index: (word / Header::ADDRESSES % Header::INDICES) as u8,
        flips: flips as u8,
    }
}

// The pattern of so many flips that leaves a word.
fn flipped(n: u32, flips: u32) -> Option<u32>
    requires { flips ≤ 3 }
    ensures leaves { pattern_of result ≡ leaving n (error_patterns flips 23) }
    ensures fits { IfSome result (λ e. e < 2 ^ 23) }
{
    match flips {
        0 => no_flip(n),
        1 => one_flip(n, Header::BITS),
        2 => two_flips(n, Header::BITS),
        _ => three_flips(n, Header::BITS),
    }
}

// No flip: it is a word as it stands.
fn no_flip(n: u32) -> Option<u32>
    ensures leaves { pattern_of result ≡ leaving n (error_patterns 0 23) }
    ensures fits { IfSome result (λ e. e < 2 ^ 23) }
{
    if remainder(n) == 0 {
        return Some(0);
    }
    None
}

// One flip in bits 0 to bits - 1: each in turn.
fn one_flip(n: u32, bits: u32) -> Option<u32>
    requires { bits ≤ 23 }
    ensures leaves { pattern_of result ≡ leaving n (error_patterns 1 bits) }
    ensures fits { IfSome result (λ e. e < 2 ^ 23) }
{
    for bit in 0..bits {
        let flip = 1u32 << bit;
        if remainder(n ^ flip) == 0 {
            return Some(flip);
        }
    }
    None
}

// Two flips: each bit in turn as the higher one, and one flip below it.
fn two_flips(n: u32, bits: u32) -> Option<u32>
    requires { bits ≤ 23 }
    ensures leaves { pattern_of result ≡ leaving n (error_patterns 2 bits) }
    ensures fits { IfSome result (λ e. e < 2 ^ 23) }
{
    for bit in 0..bits {
        let flip = 1u32 << bit;
        if let Some(below) = one_flip(n ^ flip, bit) {
            return Some(flip + below);
        }
    }
    None
}

// Three flips: each bit in turn as the highest one, and two flips below it.
fn three_flips(n: u32, bits: u32) -> Option<u32>
    requires { bits ≤ 23 }
    ensures leaves { pattern_of result ≡ leaving n (error_patterns 3 bits) }
    ensures fits { IfSome result (λ e. e < 2 ^ 23) }
{
    for bit in 0..bits {
        let flip = 1u32 << bit;
        if let Some(below) = two_flips(n ^ flip, bit) {
            return Some(flip + below);
        }
    }
    None
}

// The long division by G(x), line by line: where the highest power is there, G(x) is taken away under it; then the next power is the
// highest. Twelve lines take x^22 to x^11 away and leave eleven bits, the remainder. A word is a multiple of G(x): it leaves 0.
fn remainder(n: u32) -> u32
    ensures { result ≡ remainder n }
{
    let mut rest = n;
    for _ in 0u32..12 {
        if rest % 2 == 1 {
            rest = rest ^ GENERATOR;
        }
        rest = rest / 2;
    }
    rest
}
