// Runs of bytes: set to 0, copied, and numbers of two, four and eight bytes in them. Each function touches the bytes that it
// names and no others.
#![tactic(auto)]

ghost use Rattle.std.specs.Prelude.{◌≡◌, ◌+◌, ◌≤◌, length};
ghost use Rattle.bits.specs.Bits.{blank};
ghost use Rattle.runs.specs.Part.{part, put};
ghost use Rattle.runs.specs.Numbers.{two_at, four, four_at, eight, eight_at};

// Every byte 0.
pub fn clear(bytes: &mut [u8])
    ensures { bytes.new ≡ blank (length bytes.old) }
{
    bytes.fill(0);
}

// Copies a run of bytes to a place. A loop, since `copy_from_slice` has C's `memmove` do it where the length is not known, which whoever links
// the library would have to bring.
pub fn copy(to: &mut [u8], at: usize, from: &[u8])
    requires { at + length from.now ≤ length to.old }
    ensures { to.new ≡ put at (length from.now) from.now to.old }
{
    for k in 0..from.len() {
        to[at + k] = from[k];
    }
}

// Two bytes, highest first.
pub fn two_at(s: &[u8], at: usize) -> u32
    requires { at + 2 ≤ length s.now }
    ensures { result ≡ two_at at s.now }
{
    u16::from_be_bytes([s[at], s[at + 1]]) as u32
}

// Numbers of four and of eight bytes, lowest first. A trait over the two types would be longer than the two pairs of lines.
pub fn four_at(s: &[u8], at: usize) -> u32
    requires { at + 4 ≤ length s.now }
    ensures { result ≡ four_at at s.now }
{
    u32::from_le_bytes(array_at(s, at))
}

pub fn put_four(s: &mut [u8], at: usize, n: u32)
    requires { at + 4 ≤ length s.old }
    ensures { s.new ≡ put at 4 (four n) s.old }
{
    copy(s, at, &n.to_le_bytes());
}

pub fn eight_at(s: &[u8], at: usize) -> u64
    requires { at + 8 ≤ length s.now }
    ensures { result ≡ eight_at at s.now }
{
    u64::from_le_bytes(array_at(s, at))
}

pub fn put_eight(s: &mut [u8], at: usize, n: u64)
    requires { at + 8 ≤ length s.old }
    ensures { s.new ≡ put at 8 (eight n) s.old }
{
    copy(s, at, &n.to_le_bytes());
}

// As many bytes as the number wants.
fn array_at<const N: usize>(s: &[u8], at: usize) -> [u8; N]
    requires { at + N ≤ length s.now }
    ensures { result ≡ part at N s.now }
{
    s[at..at + N].try_into().unwrap()
}
