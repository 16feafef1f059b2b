// The multiplex's map (document 02, Ask 4): which components there are and where, from the fields of TDM control, so that a move is
// seen when it is announced. No call has a `requires`: every slice and every number is answered.
//
// look          what the map is asked before a change
#![tactic(auto)]

ghost use Rattle.std.specs.Prelude.{◌≡◌, ℕ, List, ◌<◌, length};
ghost use Rattle.runs.specs.Part.{part, put};
ghost use Rattle.structure.specs.Structure.{structure_size};
ghost use Rattle.map.specs.Map.{ids, block_size, map_size, frames_of, with_frames, stayed, settled, changed, each_from, spoiled_both};
ghost use Rattle.faults.specs.Refusals.{told};
ghost use Rattle.map.specs.Answers.{told_shown, told_heard, told_known};
ghost use Rattle.map.specs.Calls.{show_answer, start_answer, start_after, put_in, taken_in, take_answer, take_after, shown, list_answer, list_after, heard, known};

use faults::Refusal;
use field::{Field, Tdms};
use frames::Frames;
use structure::Structure;

pub mod look;

#[derive(Clone, Copy)]
pub struct Map {}

impl Map {
    pub const IDS: usize = 256;

    // "The number of different TDM components ... shall never exceed 128."
    pub const COMPONENTS: usize = 128;

    pub const BLOCK: usize = 2 * Structure::SIZE;

    pub const FRAMES: usize = Self::IDS * Self::BLOCK;

    pub const SIZE: usize = Self::FRAMES + 4;
}

// Where fields stand in the map: their place and their length, 0 and 0 where there are none.
#[derive(Clone, Copy, Default)]
pub struct Span {
    pub at: usize,
    pub len: usize,
}

// What is known of a component: its fields, none where its structure is unfinished, which is 46; in how many frames behind the last one
// the change comes that is announced of it; and whether not enough was heard to hold that there is none.
#[derive(Clone, Copy, Default)]
pub struct Shown {
    pub fields: Option<Span>,
    pub change: Option<u8>,
    pub unknown: bool,
}

// What was heard of a component: its fields so far, and whether they are known to be all.
#[derive(Clone, Copy, Default)]
pub struct Gathered {
    pub fields: Span,
    pub whole: bool,
}

// How far what was heard reaches: frames in a row, whether every frame of the running configuration was heard, and how many components
// are in force.
#[derive(Clone, Copy, Default)]
pub struct Reach {
    pub row: u8,
    pub unbroken: bool,
    pub components: usize,
}

// The frames, at the map's end.
#[tactic(auto, unfolding(crate::specs::Map::frames_of))]
fn frames_of(map: &[u8]) -> Frames
    requires { length map.now ≡ map_size }
    ensures { result ≡ frames_of map.now }
{
    Frames {
        last: map[Map::FRAMES],
        heard: map[Map::FRAMES + 1],
        unbroken: map[Map::FRAMES + 2],
        row: map[Map::FRAMES + 3],
    }
}

#[tactic(auto, unfolding(crate::specs::Map::with_frames, runs::specs::Part::put))]
fn put_frames(map: &mut [u8], frames: Frames)
    requires { length map.old ≡ map_size }
    ensures { map.new ≡ with_frames frames map.old }
{
    map[Map::FRAMES] = frames.last;
    map[Map::FRAMES + 1] = frames.heard;
    map[Map::FRAMES + 2] = frames.unbroken;
    map[Map::FRAMES + 3] = frames.row;
}

// 20. Every byte becomes 0.
#[tactic(auto, unfolding(crate::specs::Calls::start_answer, crate::specs::Calls::start_after, bits::specs::Rows::refusal, bits::specs::Rows::done))]
pub fn start(map: &mut [u8]) -> Result<(), Refusal>
    ensures value { told result ≡ start_answer map.old }
    ensures map_after { map.new ≡ start_after map.old }
{
    if map.len() != Map::SIZE {
        return Err(Refusal::Length);
    }
    runs::clear(map);
    Ok(())
}

// 20, 34, 44, 45. Takes in the field of one frame; changes that fall before that frame come first.
pub fn take(map: &mut [u8], field: &[u8]) -> Result<(), Refusal>
    ensures value { told result ≡ take_answer map.old field.now }
    ensures map_after { map.new ≡ take_after map.old field.now }
{
    let field = look::take_answer(map, field)?;
    let frames = frames_of(map);
    if frames.again(field.count) {
        return Ok(());
    }
    let missed = frames.skips(field.count);
    if frames.changing(field.count) {
        let sure = frames.all_heard();
        each(map, |block| change_one(block, sure));
    }
    if missed {
        each(map, spoil_one);
    }
    if field.id != Field::PANNING {
        put_in(map, field);
    }
    put_frames(map, frames.after(field.count));
    Ok(())
}

// A change of one component's bytes, for every component. By index, and not by `chunks_exact_mut`: of parts lent by an iterator a proof
// knows the length afterwards, and not the bytes.
fn each<F: Fn(&mut [u8])>(map: &mut [u8], change: F)
    requires map_len { length map.old ≡ map_size }
    requires callable { (block : _) → length block.now ≡ block_size → F.pre change block }
    ensures { (f : List ℕ → List ℕ) → ((block left : _) → length block.now ≡ block_size → F.post change block tt left → left.now ≡ f block.now) → map.new ≡ each_from ids 0 f map.old }
{
    for id in 0..Map::IDS {
        let at = id * Map::BLOCK;
        change(&mut map[at..at + Map::BLOCK]);
    }
}

// One component at a change.
fn change_one(block: &mut [u8], sure: bool)
    requires { length block.old ≡ block_size }
    ensures { block.new ≡ changed sure block.old }
{
    let coming = Structure::load(&block[Structure::SIZE..Map::BLOCK]);
    if coming.said() {
        copy_down(block);
        settle(&mut block[0..Structure::SIZE], sure);
        runs::clear(&mut block[Structure::SIZE..Map::BLOCK]);
    } else {
        stay(&mut block[0..Structure::SIZE], sure);
        runs::clear(&mut block[Structure::SIZE..Map::BLOCK]);
    }
}

// What was announced comes into force; what is not whole is begun anew.
#[tactic(auto, unfolding(crate::specs::Map::settled))]
fn settle(s: &mut [u8], sure: bool)
    requires { length s.old ≡ structure_size }
    ensures { s.new ≡ settled sure s.old }
{
    Structure::load(s).settled(sure).store(s);
    structure::spoil(s);
}

// Nothing was announced. A change that is not sure may have cut a repetition off.
#[tactic(auto, unfolding(crate::specs::Map::stayed))]
fn stay(s: &mut [u8], sure: bool)
    requires { length s.old ≡ structure_size }
    ensures { s.new ≡ stayed sure s.old }
{
    Structure::load(s).marked(0, 0).store(s);
    if !sure {
        structure::spoil(s);
    }
}

// A frame was missed: nothing that is being gathered is taken for the whole.
fn spoil_one(block: &mut [u8])
    requires { length block.old ≡ block_size }
    ensures { block.new ≡ spoiled_both block.old }
{
    structure::spoil(&mut block[0..Structure::SIZE]);
    structure::spoil(&mut block[Structure::SIZE..Map::BLOCK]);
}

// The announced structure's bytes take the place of those in force.
fn copy_down(block: &mut [u8])
    requires { length block.old ≡ block_size }
    ensures { block.new ≡ put 0 structure_size (part structure_size structure_size block.old) block.old }
{
    block.copy_within(Structure::SIZE..Map::BLOCK, 0);
}

// A field into its structure.
fn put_in(map: &mut [u8], field: Field)
    requires map_len { length map.old ≡ map_size }
    requires flag_bound { field.flag < 2 }
    requires fact { field.id ≡ 129 → ⊥ }
    ensures { map.new ≡ taken_in field map.old }
{
    let at = field.id as usize * Map::BLOCK + field.flag as usize * Structure::SIZE;
    put_structure(&mut map[at..at + Structure::SIZE], field);
}

#[tactic(auto, unfolding(crate::specs::Calls::put_in))]
fn put_structure(s: &mut [u8], field: Field)
    requires { length s.old ≡ structure_size }
    ensures { s.new ≡ put_in field s.old }
{
    if Tdms::deletes(field.tdms) {
        structure::none(s, field.flag != 0);
    } else {
        structure::gather(s, field.tdms, field.links);
    }
}

// 20, 34. What is known of a component in the frame with a count; 46 is told where it shows no fields.
#[tactic(auto, unfolding(crate::specs::Calls::shown, crate::specs::Calls::shown_by, crate::specs::Calls::show_answer, bits::specs::Rows::refusal))]
pub fn show(map: &[u8], id: u8, count: u8) -> Result<Shown, Refusal>
    ensures number { told result ≡ show_answer map.now }
    ensures value { told_shown result ≡ shown map.now id count }
{
    look::checked(map)?;
    Ok(look::shown_at(map, id as usize, count))
}

// 20, 34. A mark for each component in the frame with a count: 0 none, 1 whole, 2 unfinished, 3 not known.
#[tactic(auto, unfolding(crate::specs::Calls::list_answer, crate::specs::Calls::list_after, crate::specs::Calls::show_answer, bits::specs::Rows::refusal, bits::specs::Rows::done))]
pub fn list(map: &[u8], count: u8, out: &mut [u8]) -> Result<(), Refusal>
    ensures value { told result ≡ list_answer map.now out.old }
    ensures out_after { out.new ≡ list_after map.now count out.old }
{
    if map.len() != Map::SIZE || out.len() != Map::IDS {
        return Err(Refusal::Length);
    }
    look::checked(map)?;
    let frames = frames_of(map);
    let change = frames.changing(count);
    let sure = frames.all_heard();
    let heard = frames.enough();
    for (id, mark) in out.iter_mut().enumerate() {
        *mark = u8::from(look::mark_at(map, id, change, sure, heard));
    }
    Ok(())
}

// 20, 34. What was heard of a component that is in force in the frame with a count, whole or not.
#[tactic(auto, unfolding(crate::specs::Calls::heard, crate::specs::Calls::heard_by, crate::specs::Calls::show_answer, bits::specs::Rows::refusal))]
pub fn heard(map: &[u8], id: u8, count: u8) -> Result<Gathered, Refusal>
    ensures { told_heard result ≡ heard map.now id count }
{
    look::checked(map)?;
    let heard = look::heard_at(map, id as usize, count);
    Ok(Gathered {
        fields: heard.fields,
        whole: heard.whole == 1,
    })
}

// 20, 34. How far what was heard reaches, and how many components are in force in the frame with a count.
#[tactic(auto, unfolding(crate::specs::Calls::known, crate::specs::Calls::known_by, crate::specs::Calls::show_answer, bits::specs::Rows::refusal))]
pub fn known(map: &[u8], count: u8) -> Result<Reach, Refusal>
    ensures { told_known result ≡ known map.now count }
{
    look::checked(map)?;
    let known = look::known_at(map, count);
    Ok(Reach {
        row: known.row,
        unbroken: known.unbroken == 1,
        components: known.components,
    })
}
