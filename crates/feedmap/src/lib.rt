// The map's calls that C and Rust link, beside those of `feed`. Each gives back a number, 0 or a refusal's, and hands its values over
// through what is lent to it. Every call is answered, whatever it is given.
#![tactic(auto)]

ghost use Rattle.std.specs.Prelude.{◌≡◌};
ghost use Rattle.faults.specs.Refusals.{told};
ghost use Rattle.map.specs.Answers.{no_span, told_shown};
ghost use Rattle.field.specs.Field.{handed, read_number, read_field, write_number, written_after, pack_number, packed, unpack_number, unpacked};
ghost use Rattle.map.specs.Calls.{start_answer, start_after, take_answer, take_after, shown, list_answer, list_after, heard, known};
ghost use Rattle.feedmap.specs.Made.{field_made, tdms_made};

use faults::Refusal;
use faults::refusal::told;
use field::{Field, Tdms};
use map::{Shown, Span};

// The fields that are shown, or 46.
fn fields(answer: Result<Shown, Refusal>) -> Result<Span, Refusal>
    ensures number { told result ≡ (told_shown answer).number }
    ensures value { handed no_span result ≡ record { at = (told_shown answer).at; len = (told_shown answer).len } }
{
    answer?.fields.ok_or(Refusal::Unfinished)
}

// 20. Every byte becomes 0.
#[unsafe(no_mangle)]
pub extern "C" fn feed_map_start(map: &mut [u8]) -> u8
    ensures value { result ≡ start_answer map.old }
    ensures map_after { map.new ≡ start_after map.old }
{
    told(&map::start(map))
}

// 20, 34, 44, 45.
#[unsafe(no_mangle)]
pub extern "C" fn feed_map_take(map: &mut [u8], field: &[u8]) -> u8
    ensures value { result ≡ take_answer map.old field.now }
    ensures map_after { map.new ≡ take_after map.old field.now }
{
    told(&map::take(map, field))
}

// 20, 34, 46; with 0 the place and the length of the fields in the map, and whether it is not known yet that there is none.
#[unsafe(no_mangle)]
pub extern "C" fn feed_map_show(
    map: &[u8],
    id: u8,
    count: u8,
    at: &mut usize,
    len: &mut usize,
    announced: &mut u8,
    frames: &mut u8,
    unknown: &mut u8,
) -> u8
    ensures value { result ≡ (shown map.now id count).number }
    ensures at_after { at.new ≡ (shown map.now id count).at }
    ensures len_after { len.new ≡ (shown map.now id count).len }
    ensures announced_after { announced.new ≡ (shown map.now id count).announced }
    ensures frames_after { frames.new ≡ (shown map.now id count).frames }
    ensures unknown_after { unknown.new ≡ (shown map.now id count).unknown }
{
    let answer = map::show(map, id, count);
    let fields = fields(answer);
    let span = fields.unwrap_or_default();
    *at = span.at;
    *len = span.len;
    let shown = answer.unwrap_or_default();
    *announced = u8::from(shown.change.is_some());
    *frames = shown.change.unwrap_or(0);
    *unknown = u8::from(shown.unknown);
    told(&fields)
}

// 20, 34.
#[unsafe(no_mangle)]
pub extern "C" fn feed_map_list(map: &[u8], count: u8, out: &mut [u8]) -> u8
    ensures value { result ≡ list_answer map.now out.old }
    ensures out_after { out.new ≡ list_after map.now count out.old }
{
    told(&map::list(map, count, out))
}

// 20, 34; with 0 the place and the length of the fields that were heard, and whether they are known to be all.
#[unsafe(no_mangle)]
pub extern "C" fn feed_map_heard(
    map: &[u8],
    id: u8,
    count: u8,
    at: &mut usize,
    len: &mut usize,
    whole: &mut u8,
) -> u8
    ensures value { result ≡ (heard map.now id count).number }
    ensures at_after { at.new ≡ (heard map.now id count).at }
    ensures len_after { len.new ≡ (heard map.now id count).len }
    ensures whole_after { whole.new ≡ (heard map.now id count).whole }
{
    let answer = map::heard(map, id, count);
    let gathered = answer.unwrap_or_default();
    *at = gathered.fields.at;
    *len = gathered.fields.len;
    *whole = u8::from(gathered.whole);
    told(&answer)
}

// 20, 34; with 0 the frames that were heard in a row, whether those of the running configuration were all heard, and how many
// components are in force.
#[unsafe(no_mangle)]
pub extern "C" fn feed_map_known(
    map: &[u8],
    count: u8,
    row: &mut u8,
    unbroken: &mut u8,
    components: &mut usize,
) -> u8
    ensures value { result ≡ (known map.now count).number }
    ensures row_after { row.new ≡ (known map.now count).row }
    ensures unbroken_after { unbroken.new ≡ (known map.now count).unbroken }
    ensures components_after { components.new ≡ (known map.now count).components }
{
    let answer = map::known(map, count);
    let reach = answer.unwrap_or_default();
    *row = reach.row;
    *unbroken = u8::from(reach.unbroken);
    *components = reach.components;
    told(&answer)
}

// 20, and then every value is 0.
#[unsafe(no_mangle)]
pub extern "C" fn feed_map_read(
    field: &[u8],
    count: &mut u8,
    flag: &mut u8,
    id: &mut u8,
    tdms: &mut u64,
    links: &mut u8,
) -> u8
    ensures value { result ≡ read_number field.now }
    ensures count_after { count.new ≡ (read_field field.now).count }
    ensures flag_after { flag.new ≡ (read_field field.now).flag }
    ensures id_after { id.new ≡ (read_field field.now).id }
    ensures tdms_after { tdms.new ≡ (read_field field.now).tdms }
    ensures links_after { links.new ≡ (read_field field.now).links }
{
    let answer = field::read(field);
    let read = answer.unwrap_or_default();
    *count = read.count;
    *flag = read.flag;
    *id = read.id;
    *tdms = read.tdms;
    *links = read.links;
    told(&answer)
}

// 20, 33, 44.
#[tactic(auto, unfolding(crate::specs::Made::field_made))]
#[unsafe(no_mangle)]
pub extern "C" fn feed_map_write(
    count: u8,
    flag: u8,
    id: u8,
    tdms: u64,
    links: u8,
    out: &mut [u8],
) -> u8
    ensures value { result ≡ write_number (field_made count flag id tdms links) out.old }
    ensures out_after { out.new ≡ written_after (field_made count flag id tdms links) out.old }
{
    let field = Field {
        count,
        flag,
        id,
        tdms,
        links,
    };
    told(&field::write(field, out))
}

// 33, and then 0.
#[tactic(auto, unfolding(crate::specs::Made::tdms_made))]
#[unsafe(no_mangle)]
pub extern "C" fn feed_map_pack(
    fln1: u32,
    lln1: u32,
    fln2: u32,
    lln2: u32,
    fcp: u32,
    lcp: u32,
    tdms: &mut u64,
) -> u8
    ensures value { result ≡ pack_number (tdms_made fln1 lln1 fln2 lln2 fcp lcp) }
    ensures tdms_after { tdms.new ≡ packed (tdms_made fln1 lln1 fln2 lln2 fcp lcp) }
{
    let six = Tdms {
        fln1,
        lln1,
        fln2,
        lln2,
        fcp,
        lcp,
    };
    let answer = field::pack(six);
    *tdms = answer.unwrap_or(0);
    told(&answer)
}

// 33, and then every number is 0.
#[unsafe(no_mangle)]
pub extern "C" fn feed_map_unpack(
    tdms: u64,
    fln1: &mut u32,
    lln1: &mut u32,
    fln2: &mut u32,
    lln2: &mut u32,
    fcp: &mut u32,
    lcp: &mut u32,
) -> u8
    ensures value { result ≡ unpack_number tdms }
    ensures fln1_after { fln1.new ≡ (unpacked tdms).fln1 }
    ensures lln1_after { lln1.new ≡ (unpacked tdms).lln1 }
    ensures fln2_after { fln2.new ≡ (unpacked tdms).fln2 }
    ensures lln2_after { lln2.new ≡ (unpacked tdms).lln2 }
    ensures fcp_after { fcp.new ≡ (unpacked tdms).fcp }
    ensures lcp_after { lcp.new ≡ (unpacked tdms).lcp }
{
    let answer = field::unpack(tdms);
    let six = answer.unwrap_or_default();
    *fln1 = six.fln1;
    *lln1 = six.lln1;
    *fln2 = six.fln2;
    *lln2 = six.lln2;
    *fcp = six.fcp;
    *lcp = six.lcp;
    told(&answer)
}
