// Calls on the map, run from rows of text (crates/rows), which stand in this crate's stdin. A row that is not answered as it says is
// printed, and at the end how many rows were run and passed.
//
// hand     what rows set by hand: the map, a kept copy of it, a field
// taking   the calls that may change the map
//
// Rows that change no map are answered by the crate maprows.
#![tactic(auto)]

use field::Field;
use map::Map;
use rows::tell;
use std::io;

mod hand;
mod taking;

// There is a byte more than a call takes of the map and of a field, so that too many can be lent.
fn main(rt: HostRuntime) -> io::Result<()> {
    println!(rt; "mapcalls 1")?;
    let mut bytes = [0u8; 262144];
    let mut map = [0u8; Map::SIZE + 1];
    let mut kept = [0u8; Map::SIZE + 1];
    let mut field = [0u8; Field::SIZE + 1];
    let mut lent = Map::SIZE;
    tell::run(&rt, &mut bytes, |row| {
        let map = tell::lend(row, &mut lent, &mut map);
        hand::called(row, map, &mut kept, &mut field)
    })
}
