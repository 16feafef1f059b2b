// The packet image (document 01, section 1; ETS 300 352, 4.3.6): its header number, its type byte, its 90 useful bytes, its spare bit, and
// an image made of the first three. It knows no code and no state.
#![tactic(auto)]

ghost use Rattle.std.specs.Prelude.{◌≡◌, ◌∷◌, ◌^◌, ◌<◌, length, get_or, drop};
ghost use Rattle.image.specs.Image.{header_of, bytes_of, spare_of, image_of};

// Sizes of a packet (4.3.6): its image, and the useful bytes.
#[derive(Clone, Copy)]
pub struct Packet {}

impl Packet {
    pub const IMAGE: usize = 94;

    pub const USEFUL: usize = 90;
}

// The header's 23 bits: two bytes and seven bits of the third. With `from_le_bytes` it takes a sixth more time.
pub fn header(image: &[u8]) -> u32
    requires { length image.now ≡ 94 }
    ensures { result ≡ header_of image.now }
{
    image[0] as u32 | (image[1] as u32) << 8 | (image[2] as u32 & 127) << 16
}

// Bit 751, which must be 0.
pub fn spare(image: &[u8]) -> u8
    requires { length image.now ≡ 94 }
    ensures { result ≡ spare_of image.now }
{
    image[93] >> 7
}

// The type byte. The header ends one bit before the end of image byte 2, so this byte and each that follows is the highest bit of
// one image byte and the seven lower bits of the next; bit 751 is in none.
pub fn kind(image: &[u8]) -> u8
    requires { length image.now ≡ 94 }
    ensures { result ≡ get_or (bytes_of image.now) 0 0 }
{
    image[2] >> 7 | (image[3] & 127) << 1
}

// The 90 useful bytes.
pub fn useful(image: &[u8]) -> [u8; Packet::USEFUL]
    requires { length image.now ≡ 94 }
    ensures { result ≡ drop 1 (bytes_of image.now) }
{
    let mut useful = [0u8; Packet::USEFUL];
    for j in 0..Packet::USEFUL {
        useful[j] = image[j + 3] >> 7 | (image[j + 4] & 127) << 1;
    }
    useful
}

// The image of a header, a type byte and 90 useful bytes, into bytes that are lent; bit 751 is 0. The last byte stands apart so that the
// loop needs no test.
pub fn put(header: u32, kind: u8, useful: &[u8], out: &mut [u8])
    requires header_bound { header < 2 ^ 23 }
    requires useful_len { length useful.now ≡ 90 }
    requires out_len { length out.old ≡ 94 }
    ensures { out.new ≡ image_of header (kind ∷ useful.now) }
{
    out[0] = (header & 255) as u8;
    out[1] = (header >> 8 & 255) as u8;
    out[2] = (header >> 16) as u8 | (kind & 1) << 7;
    out[3] = kind >> 1 | (useful[0] & 1) << 7;
    for j in 0..Packet::USEFUL - 1 {
        out[j + 4] = useful[j] >> 1 | (useful[j + 1] & 1) << 7;
    }
    out[Packet::IMAGE - 1] = useful[Packet::USEFUL - 1] >> 1;
}
