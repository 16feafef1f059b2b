// What the map is asked before a change: frames, structures, whether it is good, and what is known of a component.
ghost use Rattle.std.specs.Prelude.{◌≡◌, Bool, true, ℕ, ◌+◌, ◌*◌, ◌<◌, eqb, length, Ok, IfOk};
ghost use Rattle.frames.specs.Counts.{changing, all_heard, enough};
ghost use Rattle.frames.specs.declared.Frames.{Frames};
ghost use Rattle.map.specs.Map.{ids, map_size, frames_of, structure_at, good_at, good, present, counted, components};
ghost use Rattle.faults.specs.Refusals.{told};
ghost use Rattle.field.specs.Field.{field_of};
ghost use Rattle.structure.specs.Structure.{head_of};
ghost use Rattle.map.specs.Answers.{told_shown, as_heard, as_known, mark_number};
ghost use Rattle.map.specs.Calls.{too_many, take_answer, then_which, then_head, unknown, found_of, shown_at, show_answer, mark_of, heard_len, heard_at, known_at};

use crate::{Map, Shown, Span};
use faults::Refusal;
use field::{Field, Tdms};
use frames::Frames;
use structure::Structure;

// The head of the structure in force (which 0) or of the announced one (which 1): numbers, as the update flag has them that a field
// carries, and with which a structure's place is reckoned. An enum would only be made of that flag and be turned into it again.
#[tactic(auto, unfolding(crate::specs::Map::structure_at, runs::specs::Part::part))]
pub fn head(map: &[u8], id: usize, which: usize) -> Structure
    requires map_len { length map.now ≡ map_size }
    requires id_lt_ids { id < ids }
    requires which_bound { which < 2 }
    ensures { result ≡ head_of (structure_at id which map.now) }
{
    let at = id * Map::BLOCK + which * Structure::SIZE;
    Structure::load(&map[at..at + Structure::SIZE])
}

// What is wrong with a component's two heads, 0 exactly if nothing is.
fn faults_at(map: &[u8], id: usize) -> u32
    requires map_len { length map.now ≡ map_size }
    requires id_lt_ids { id < ids }
    ensures { eqb result 0 ≡ good_at map.now id }
{
    let at = id * Map::BLOCK;
    let force = Structure::faults_in_force(&map[at..at + Structure::SIZE]);
    force | Structure::faults(&map[at + Structure::SIZE..at + Map::BLOCK])
}

// What is wrong is folded together, and tested once: no test ends it early, so that several heads are tested at a time.
fn is_good(map: &[u8]) -> bool
    requires { length map.now ≡ map_size }
    ensures { result ≡ good map.now }
{
    let frames = crate::frames_of(map).good();
    let mut faults: u32 = 0;
    for id in 0..Map::IDS {
        faults |= faults_at(map, id);
    }
    frames && faults == 0
}

// 20, 34.
#[tactic(auto, unfolding(crate::specs::Calls::show_answer, bits::specs::Rows::refusal))]
pub fn checked(map: &[u8]) -> Result<(), Refusal>
    ensures { told result ≡ show_answer map.now }
{
    if map.len() != Map::SIZE {
        return Err(Refusal::Length);
    }
    if is_good(map) {
        Ok(())
    } else {
        Err(Refusal::State)
    }
}

// A component is in its set for certain, before or behind a change.
#[tactic(auto, unfolding(crate::specs::Map::present, crate::specs::Map::stands, crate::specs::Map::comes, crate::specs::Map::announced, crate::specs::Map::in_force))]
fn present(map: &[u8], id: usize, which: usize, change: bool, sure: bool) -> bool
    requires map_len { length map.now ≡ map_size }
    requires id_lt_ids { id < ids }
    ensures { result ≡ present which change sure map.now id }
{
    let coming = head(map, id, 1);
    if which != 0 {
        return !change && 0 < coming.fields;
    }
    if change {
        sure && coming.certainly()
    } else {
        head(map, id, 0).certainly()
    }
}

// Of how many components something holds.
fn counted<F: Fn(usize) -> bool>(holds: F) -> usize
    requires { (id : ℕ) → id < ids → F.pre holds id }
    ensures { (p : ℕ → Bool) → ((id : ℕ) (b : Bool) → id < ids → F.post holds id b → b ≡ p id) → result ≡ counted p ids 0 }
{
    let mut count: usize = 0;
    for id in 0..Map::IDS {
        if holds(id) {
            count += 1;
        }
    }
    count
}

fn components(map: &[u8], which: usize, change: bool, sure: bool) -> usize
    requires { length map.now ≡ map_size }
    ensures { result ≡ components which change sure map.now }
{
    counted(|id| present(map, id, which, change, sure))
}

#[tactic(auto, unfolding(crate::specs::Calls::too_many))]
fn too_many(map: &[u8], field: Field) -> bool
    requires { length map.now ≡ map_size }
    ensures { result ≡ too_many map.now field }
{
    let frames = crate::frames_of(map);
    let change = frames.changing(field.count);
    let sure = frames.all_heard();
    if Tdms::deletes(field.tdms) {
        return false;
    }
    if present(map, field.id as usize, field.flag as usize, change, sure) {
        return false;
    }
    Map::COMPONENTS <= components(map, field.flag as usize, change, sure)
}

// 20, 34, 44, 45. The field, where it is taken.
#[tactic(auto, unfolding(crate::specs::Calls::take_answer, crate::specs::Calls::take_rows, bits::specs::Rows::refusal))]
pub fn take_answer(map: &[u8], field: &[u8]) -> Result<Field, Refusal>
    ensures number { told result ≡ take_answer map.now field.now }
    ensures value { IfOk result (λ given. given ≡ field_of field.now) }
{
    if map.len() != Map::SIZE || field.len() != Field::SIZE {
        return Err(Refusal::Length);
    }
    if !is_good(map) {
        return Err(Refusal::State);
    }
    let field = Field::load(field);
    if field.bad() {
        return Err(Refusal::BadPair);
    }
    if field.id == Field::PANNING || crate::frames_of(map).again(field.count) {
        return Ok(field);
    }
    if too_many(map, field) {
        return Err(Refusal::TooMany);
    }
    Ok(field)
}

// The structure of a component that is in force in the frame with a count: the announced one behind the change. Which of the two it is
// stands as a number, as `head` is asked.
#[derive(Clone, Copy)]
struct Then {
    which: usize,
    head: Structure,
}

#[tactic(auto, unfolding(crate::specs::Calls::then_which, crate::specs::Calls::then_head, crate::specs::Map::announced, crate::specs::Map::in_force))]
fn then_at(map: &[u8], id: usize, count: u8) -> Then
    requires map_len { length map.now ≡ map_size }
    requires id_lt_ids { id < ids }
    ensures { (result.which ≡ then_which map.now id count) × (result.head ≡ then_head map.now id count) }
{
    let frames = crate::frames_of(map);
    let coming = head(map, id, 1);
    if frames.changing(count) && coming.said() {
        return Then {
            which: 1,
            head: coming.settled(frames.all_heard()),
        };
    }
    Then {
        which: 0,
        head: head(map, id, 0),
    }
}

// What is known of a component in the frame with a count.
#[tactic(auto, unfolding(crate::specs::Calls::shown_at, crate::specs::Map::announced))]
pub fn shown_at(map: &[u8], id: usize, count: u8) -> Shown
    requires map_len { length map.now ≡ map_size }
    requires id_lt_ids { id < ids }
    ensures { told_shown (Ok result) ≡ shown_at map.now id count }
{
    let said = head(map, id, 1).said();
    let then = then_at(map, id, count);
    found(crate::frames_of(map), id, then.which, then.head, said)
}

// The answer of a structure: its fields where it is whole, 46 where it is not.
#[tactic(auto, unfolding(crate::specs::Calls::found_of, crate::specs::Calls::then_number))]
fn found(frames: Frames, id: usize, which: usize, head: Structure, said: bool) -> Shown
    requires id_lt_ids { id < ids }
    requires which_bound { which < 2 }
    ensures { told_shown (Ok result) ≡ found_of frames id which head said }
{
    let fields = if head.whole == 1 {
        Some(Span {
            at: id * Map::BLOCK + which * Structure::SIZE + Structure::FIELDS,
            len: Structure::FIELD * head.fields as usize,
        })
    } else if 0 < head.fields && head.whole == 0 {
        None
    } else {
        Some(Span::default())
    };
    Shown {
        fields,
        change: if said { Some(frames.until()) } else { None },
        unknown: unknown(frames, head),
    }
}

// Nothing came of a component in this configuration, and not enough was heard to hold that there is none.
#[tactic(auto, unfolding(crate::specs::Calls::unknown))]
fn unknown(frames: Frames, head: Structure) -> bool
    ensures { result ≡ unknown frames head }
{
    head.fields == 0 && head.certain == 0 && !frames.enough()
}

// What a list says of a component.
#[derive(Clone, Copy, Debug, PartialEq, Eq)]
pub enum Mark {
    Absent,
    Whole,
    Unfinished,
    Unknown,
}

// 0 no component, 1 whole, 2 unfinished, 3 not known.
impl From<Mark> for u8 {
    ghost from_gives = { λ mark number. number ≡ mark_number mark };

    fn from(mark: Mark) -> u8 {
        match mark {
            Mark::Absent => 0,
            Mark::Whole => 1,
            Mark::Unfinished => 2,
            Mark::Unknown => 3,
        }
    }
}

// The mark of the structure that is in force.
#[tactic(auto, unfolding(crate::specs::Calls::found_of, crate::specs::Calls::mark_of, crate::specs::Calls::then_number, crate::specs::Calls::unknown))]
fn mark_by(head: Structure, heard: bool) -> Mark
    ensures { (f : Frames) (id w : ℕ) (s : Bool) → heard ≡ enough f → mark_number result ≡ mark_of (found_of f id w head s) }
{
    if head.fields == 0 {
        return if (head.certain == 0) & !heard {
            Mark::Unknown
        } else {
            Mark::Absent
        };
    }
    if head.whole == 1 {
        Mark::Whole
    } else if head.whole == 0 {
        Mark::Unfinished
    } else {
        Mark::Absent
    }
}

// The mark of a component, by what the frames say: a change comes before the frame that is asked about, it is sure, enough was
// heard. A list asks the frames once and not for every component.
#[tactic(auto, unfolding(crate::specs::Calls::shown_at, crate::specs::Calls::then_head, crate::specs::Calls::then_which, crate::specs::Map::announced, crate::specs::Map::in_force))]
pub fn mark_at(map: &[u8], id: usize, change: bool, sure: bool, heard: bool) -> Mark
    requires map_len { length map.now ≡ map_size }
    requires id_lt_ids { id < ids }
    ensures { (count : ℕ) → change ≡ changing (frames_of map.now) count → sure ≡ all_heard (frames_of map.now) → heard ≡ enough (frames_of map.now) → mark_number result ≡ mark_of (shown_at map.now id count) }
{
    let coming = head(map, id, 1);
    if change & coming.said() {
        return mark_by(coming.settled(sure), heard);
    }
    mark_by(head(map, id, 0), heard)
}

// How many bytes of fields were heard of a structure: none, where it was spoiled.
#[tactic(auto, unfolding(crate::specs::Calls::heard_len))]
fn heard_len(map: &[u8], id: usize, which: usize, head: Structure) -> usize
    requires map_len { length map.now ≡ map_size }
    requires id_lt_ids { id < ids }
    requires which_bound { which < 2 }
    ensures { result ≡ heard_len head (structure_at id which map.now) }
{
    let at = id * Map::BLOCK + which * Structure::SIZE;
    if structure::nth(&map[at..at + Structure::SIZE], 0) == Tdms::END - 1 {
        0
    } else {
        Structure::FIELD * head.stored()
    }
}

// What was heard of a component: its fields so far, and the mark that they are all. It is the map's own byte, which is 0 or 1 in a good map.
#[derive(Clone, Copy)]
pub struct Heard {
    pub fields: Span,
    pub whole: u8,
}

// What was heard of a component, in the frame with a count.
pub fn heard_at(map: &[u8], id: usize, count: u8) -> Heard
    requires map_len { length map.now ≡ map_size }
    requires id_lt_ids { id < ids }
    ensures { as_heard result ≡ heard_at map.now id count }
{
    let then = then_at(map, id, count);
    let len = heard_len(map, id, then.which, then.head);
    let at = if len == 0 {
        0
    } else {
        id * Map::BLOCK + then.which * Structure::SIZE + Structure::FIELDS
    };
    Heard {
        fields: Span { at, len },
        whole: then.head.whole,
    }
}

// How far what was heard reaches; whether every frame was heard is the map's own byte, which is 0 or 1 in a good map.
#[derive(Clone, Copy)]
pub struct Known {
    pub row: u8,
    pub unbroken: u8,
    pub components: usize,
}

// How far what was heard reaches, and how many components are in force in the frame with a count.
pub fn known_at(map: &[u8], count: u8) -> Known
    requires { length map.now ≡ map_size }
    ensures { as_known result ≡ known_at map.now count }
{
    let frames = crate::frames_of(map);
    Known {
        row: frames.row,
        unbroken: frames.unbroken,
        components: counted(|id| 0 < then_at(map, id, count).head.fields),
    }
}
