// The record program (document 01, section 7): reads records from standard input, serves them on a state, and prints `answers 1`
// and then a line for each: its number from 1, a space, the answer. What stops it early, it says on standard error.
//
// chunk    what it does with what a read gave
// text     lines, put into a buffer
#![tactic(auto)]

ghost use Rattle.std.specs.Prelude.{◌≡◌, true, ◌+◌, ◌≤◌, ◌<◌};
ghost use Rattle.answers.specs.Said.{held, Reached, Offered};

use chunk::Progress;
use std::fmt::{Display, Formatter};
use std::io::Read;
use std::{fmt, io};
use table::Table;

mod chunk;
mod text;

fn main(rt: HostRuntime) {
    if let Err(stop) = run(&rt, &mut rt.stdin()) {
        // Nothing is left to be done where standard error takes nothing either.
        let _said = eprintln!(rt; "answers: {stop}");
    }
}

// What stops the program early.
#[derive(Drop)]
enum Stop {
    Reading(io::Error),
    Writing(io::Error),
    Endless,
}

impl Display for Stop {
    fn fmt<W: fmt::Write>(&self, f: &mut Formatter<W>) -> fmt::Result {
        match self {
            Stop::Reading(error) => write!(f, "reading standard input: {error}"),
            Stop::Writing(error) => write!(f, "writing standard output: {error}"),
            Stop::Endless => write!(f, "standard input does not end"),
        }
    }
}

// A proved loop has to end, and nothing says that a file does: so many turns no run uses up. A turn has 1,025 lines at most, so that the
// records' numbers stay within their 64 bits.
const TURNS: u64 = 1_000_000_000_000_000;

// The heading, and a turn for each read.
fn run<R: Print, I: Read>(rt: &R, input: &mut I) -> Result<(), Stop> {
    print(rt, b"answers 1\n")?;
    let mut progress = Progress {
        state: [0; Table::SIZE],
        buffer: [0; 4096],
        kept: 0,
        out: [0; 65536],
        number: 1,
        going: true,
    };
    // The array is as long as a state, so nothing is refused.
    let _ = table::start(&mut progress.state);
    for _ in 0..TURNS {
        if !progress.going {
            return Ok(());
        }
        turn(rt, input, &mut progress)?;
    }
    Err(Stop::Endless)
}

// One read, and what is to be printed for it.
fn turn<R: Print, I: Read>(rt: &R, input: &mut I, progress: &mut Progress) -> Result<(), Stop>
    requires reached { Reached (held progress.old.state progress.old.buffer progress.old.kept progress.old.number true) }
    requires number_bound { progress.old.number + 1025 < 18446744073709551616 }
    requires kept_bound { progress.old.kept ≤ 97 }
    ensures reached_2 { progress.new.going ≡ true
        → Reached (held progress.new.state progress.new.buffer progress.new.kept progress.new.number true) }
    ensures number_bound_2 { progress.new.number ≤ progress.old.number + 1025 }
    ensures kept_bound_2 { progress.new.going ≡ true → progress.new.kept ≤ 97 }
{
    let kept = progress.kept;
    let more = input
        .read(&mut progress.buffer[kept..])
        .map_err(Stop::Reading)?;
    let len = progress.answered(more);
    print(rt, &progress.out[..len])
}

// The one function that writes on standard output. It offers what is not taken yet until nothing is left, and stops at the first call
// that takes nothing. It stays a `while`: where nothing is taken, the library's `write_all` would say so in other words.
fn print(rt: &impl Print, out: &[u8]) -> Result<(), Stop>
    requires { Offered out.now }
{
    let mut done: usize = 0;
    while done < out.len() {
        let taken = rt.write_some(&out[done..]).map_err(Stop::Writing)?;
        if taken == 0 {
            let error = io::Error::new(io::ErrorKind::WriteZero, "nothing is taken");
            return Err(Stop::Writing(error));
        }
        done += taken;
    }
    Ok(())
}
