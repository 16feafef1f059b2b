// One field of TDM control (4.5.4), 10 bytes: read and written, its structure taken apart, and what is wrong with it. The calls
// `read`, `write`, `pack` and `unpack` have no `requires`; the rest is for the map.
#![tactic(auto)]

ghost use Rattle.std.specs.Prelude.{◌≡◌, ◌+◌, ◌≤◌, length};
ghost use Rattle.runs.specs.Part.{put};
ghost use Rattle.runs.specs.Numbers.{four, four_at, eight, eight_at};
ghost use Rattle.faults.specs.Refusals.{told};
ghost use Rattle.field.specs.Field.{field_of, field_bytes, bad_pair, bad_tdms, deletes, key, bad_field, handed, no_field, read_number, read_field, write_number, written_after, pack_number, packed, numbers_of, no_tdms, unpack_number, unpacked};

use faults::Refusal;

// Frame count, update flag, component, the 62 bits of TDMS as one number, LINKS.
#[derive(Clone, Copy, Default)]
pub struct Field {
    pub count: u8,
    pub flag: u8,
    pub id: u8,
    pub tdms: u64,
    pub links: u8,
}

// The six numbers of TDMS, as they are coded: line 1 and clock period 1 are 0.
#[derive(Clone, Copy, Default)]
pub struct Tdms {
    pub fln1: u32,
    pub lln1: u32,
    pub fln2: u32,
    pub lln2: u32,
    pub fcp: u32,
    pub lcp: u32,
}

impl Field {
    pub const SIZE: usize = 10;

    // Panning vectors are no component.
    pub const PANNING: u8 = 129;

    // The bytes 2 to 9 hold the component's highest bit, TDMS and LINKS.
    pub fn load(f: &[u8]) -> Self
        requires { length f.now ≡ 10 }
        ensures { result ≡ field_of f.now }
    {
        let rest = runs::eight_at(f, 2);
        Self {
            count: f[0],
            flag: f[1] % 2,
            id: f[1] / 2 + f[2] % 2 * 128,
            tdms: rest / 2 % Tdms::END,
            links: (rest / 9223372036854775808) as u8,
        }
    }

    #[tactic(auto, unfolding(crate::specs::Field::bad_field))]
    pub fn bad(self) -> bool
        ensures { result ≡ bad_field self }
    {
        self.id != Self::PANNING && Tdms::bad(self.tdms)
    }
}

impl Tdms {
    // All ones, for lines and for clock periods.
    pub const NO_LINE: u32 = 1023;

    pub const NO_CLOCK: u32 = 2047;

    // One more than the greatest of 62 bits.
    pub const END: u64 = 4611686018427387904;

    #[tactic(auto, unfolding(crate::specs::Field::bad_pair))]
    fn bad_pair(ones: u32, first: u32, last: u32) -> bool
        ensures { result ≡ bad_pair ones first last }
    {
        last < first || (last == ones && first != ones)
    }

    #[tactic(auto, unfolding(crate::specs::Field::bad_tdms, crate::specs::Field::numbers_of))]
    pub fn bad(tdms: u64) -> bool
        ensures { result ≡ bad_tdms tdms }
    {
        let six = numbers(tdms);
        Self::bad_pair(Self::NO_LINE, six.fln1, six.lln1)
            || Self::bad_pair(Self::NO_LINE, six.fln2, six.lln2)
            || Self::bad_pair(Self::NO_CLOCK, six.fcp, six.lcp)
    }

    #[tactic(auto, unfolding(crate::specs::Field::deletes))]
    pub fn deletes(tdms: u64) -> bool
        ensures { result ≡ deletes tdms }
    {
        tdms % 1099511627776 == 1099511627775
    }

    // The order of linked fields: FLN1, then FCP.
    #[tactic(auto, unfolding(crate::specs::Field::key, crate::specs::Field::fln1, crate::specs::Field::fcp))]
    pub fn key(tdms: u64) -> u64
        ensures { result ≡ key tdms }
    {
        tdms % 1024 * 2048 + tdms / 1099511627776 % 2048
    }
}

// Reads a field: 20 where it has not 10 bytes.
#[tactic(auto, unfolding(crate::specs::Field::read_number, crate::specs::Field::read_field, bits::specs::Rows::refusal, bits::specs::Rows::given))]
pub fn read(f: &[u8]) -> Result<Field, Refusal>
    ensures number { told result ≡ read_number f.now }
    ensures value { handed no_field result ≡ read_field f.now }
{
    if f.len() != Field::SIZE {
        return Err(Refusal::Length);
    }
    Ok(Field::load(f))
}

// Writes a field: 20, 33, 44. Where it is refused the output stays as it was. The update flag and LINKS are numbers, and no bools:
// a caller may hand in any, and 33 is told of those above 1.
#[tactic(auto, unfolding(crate::specs::Field::write_number, crate::specs::Field::written_after, bits::specs::Rows::refusal, bits::specs::Rows::done))]
pub fn write(field: Field, out: &mut [u8]) -> Result<(), Refusal>
    ensures value { told result ≡ write_number field out.old }
    ensures out_after { out.new ≡ written_after field out.old }
{
    if out.len() != Field::SIZE {
        return Err(Refusal::Length);
    }
    if 1 < field.flag || 1 < field.links || Tdms::END <= field.tdms {
        return Err(Refusal::TooLarge);
    }
    if field.bad() {
        return Err(Refusal::BadPair);
    }
    out[0] = field.count;
    out[1] = field.flag + field.id % 128 * 2;
    let rest = (field.id / 128) as u64 + field.tdms * 2 + field.links as u64 * 9223372036854775808;
    runs::put_eight(out, 2, rest);
    Ok(())
}

// Six numbers as TDMS: 33 where one is too wide.
#[tactic(auto, unfolding(crate::specs::Field::pack_number, crate::specs::Field::packed, crate::specs::Field::tdms_of, bits::specs::Rows::refusal, bits::specs::Rows::given))]
pub fn pack(s: Tdms) -> Result<u64, Refusal>
    ensures number { told result ≡ pack_number s }
    ensures value { handed 0 result ≡ packed s }
{
    let lines = 1024 <= s.fln1 || 1024 <= s.lln1 || 1024 <= s.fln2 || 1024 <= s.lln2;
    let clock = 2048 <= s.fcp || 2048 <= s.lcp;
    if lines || clock {
        return Err(Refusal::TooLarge);
    }
    let one = s.fln1 as u64 + s.lln1 as u64 * 1024;
    let two = s.fln2 as u64 + s.lln2 as u64 * 1024;
    let three = s.fcp as u64 + s.lcp as u64 * 2048;
    Ok(one + two * 1048576 + three * 1099511627776)
}

// TDMS as its six numbers: 33 where it has more than 62 bits.
#[tactic(auto, unfolding(crate::specs::Field::unpack_number, crate::specs::Field::unpacked, bits::specs::Rows::refusal, bits::specs::Rows::given))]
pub fn unpack(tdms: u64) -> Result<Tdms, Refusal>
    ensures number { told result ≡ unpack_number tdms }
    ensures value { handed no_tdms result ≡ unpacked tdms }
{
    if Tdms::END <= tdms {
        return Err(Refusal::TooLarge);
    }
    Ok(numbers(tdms))
}

// The six numbers.
#[tactic(auto, unfolding(crate::specs::Field::numbers_of, crate::specs::Field::fln1, crate::specs::Field::lln1, crate::specs::Field::fln2, crate::specs::Field::lln2, crate::specs::Field::fcp, crate::specs::Field::lcp))]
fn numbers(tdms: u64) -> Tdms
    ensures { result ≡ numbers_of tdms }
{
    Tdms {
        fln1: (tdms % 1024) as u32,
        lln1: (tdms / 1024 % 1024) as u32,
        fln2: (tdms / 1048576 % 1024) as u32,
        lln2: (tdms / 1073741824 % 1024) as u32,
        fcp: (tdms / 1099511627776 % 2048) as u32,
        lcp: (tdms / 2251799813685248 % 2048) as u32,
    }
}
