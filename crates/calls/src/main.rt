// Calls on a state, and the bare calls, run from rows of text (crates/rows), which stand in this crate's stdin. A row that is not
// answered as it says is printed, and at the end how many rows were run and passed.
//
// hand     what rows set by hand: state, images, message
// state    the calls on a state
//
// Rows that know no state are answered by the crate coderows.
#![tactic(auto)]

use rows::tell;
use std::io;
use table::Table;

mod hand;
mod state;

// There is a byte more than a call takes of the state, of five images and of the message, so that too many can be lent.
fn main(rt: HostRuntime) -> io::Result<()> {
    println!(rt; "calls 1")?;
    let mut bytes = [0u8; 131072];
    let mut state = [0u8; Table::SIZE + 1];
    let mut images = [0u8; 471];
    let mut message = [0u8; 361];
    let mut lent = Table::SIZE;
    tell::run(&rt, &mut bytes, |row| {
        let state = tell::lend(row, &mut lent, &mut state);
        hand::called(row, state, &mut images, &mut message)
    })
}
