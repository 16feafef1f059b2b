// A row's answer against what it awaits, and what is printed: nothing of a row that passes.
ghost use Rattle.std.specs.Prelude.{◌≡◌, ◌≤◌, length, true};
ghost use Rattle.rows.specs.Passed.{Same};

use crate::{Answer, Row, Within, text};
use std::{fmt, io};

// How far a program has come: the line that it reads, and how many rows were run and passed.
#[derive(Clone, Copy)]
struct Progress {
    row: Row,
    run: u64,
    passed: u64,
}

// Numbers that came or were awaited. Large ones are digests, or structures.
#[derive(Clone, Copy)]
struct Numbers<'a>(&'a [u64]);

// Runs all rows of the input by a function that answers one. A last line that does not end is no row. A text that fills the room for it
// may have been cut off: that is said.
pub fn run<F: FnMut(Row) -> Option<Answer>>(
    rt: &HostRuntime,
    room: &mut [u8],
    mut called: F,
) -> io::Result<()>
    requires { F.IsAlwaysCallable called }
{
    let len = text::filled(&mut rt.stdin(), room)?;
    if room.len() <= len {
        println!(rt; "the rows are too long")?;
    }
    let mut progress = Progress::new();
    for byte in &room[..len] {
        if *byte == b'\n' {
            let row = progress.row.closed();
            progress = progress.judged(rt, row, called(row))?;
        } else {
            progress.row = progress.row.fed(*byte);
        }
    }
    progress.summed(rt)
}

impl Progress {
    fn new() -> Self {
        Self {
            row: Row::new(1),
            run: 0,
            passed: 0,
        }
    }

    // The next line, behind a row and its answer. An empty line, or one of a comment, is no row. The counts cannot wrap: they are no
    // more than the bytes read.
    fn judged(mut self, rt: &impl Print, row: Row, answer: Option<Answer>) -> io::Result<Self> {
        self.row = Row::new(row.line.wrapping_add(1));
        if row.name.is_none() && row.within != Within::Bad {
            return Ok(self);
        }
        self.run = self.run.wrapping_add(1);
        if answer.is_some_and(|answer| agrees(row, answer)) {
            self.passed = self.passed.wrapping_add(1);
        } else {
            told(rt, row, answer)?;
        }
        Ok(self)
    }

    // The last line.
    fn summed(self, rt: &impl Print) -> io::Result<()> {
        let run = self.run;
        let passed = self.passed;
        println!(rt; "{run} rows, {passed} passed")
    }
}

// The bytes that are lent to a row, after a row to which so many were.
pub fn lend<'a>(row: Row, before: &mut usize, bytes: &'a mut [u8]) -> &'a mut [u8]
    ensures bound { before.new ≤ length bytes.old }
    ensures len { length result.now ≡ before.new }
{
    let end = lent(row, *before, bytes.len());
    *before = end;
    &mut bytes[..end]
}

// How many bytes are lent to a row, of as many as there are: as many as before, but for `lend LENGTH = LENT`.
fn lent(row: Row, before: usize, most: usize) -> usize
    ensures { result ≤ most }
{
    let wanted = if row.is("lend") {
        row.values[0] as usize
    } else {
        before
    };
    wanted.min(most)
}

// A row passes only where all that it awaits came. Numbers that are not given are 0 on both sides.
fn agrees(row: Row, answer: Answer) -> bool
    ensures { result ≡ true → Same row.values answer.values }
{
    readable(row, answer) && (0..8).all(|k| row.values[Row::WANTED + k] == answer.values[k])
}

// It is a row, with `=`, of a call that there is, with as many numbers on both sides as that has.
fn readable(row: Row, answer: Answer) -> bool {
    let end = answer.len.wrapping_add(Row::WANTED);
    row.within != Within::Bad && row.args == answer.args && row.next == end
}

// A row that fails: its line, what came and what was awaited. Where there is no such call, no numbers came, which are 0 again.
fn told(rt: &impl Print, row: Row, answer: Option<Answer>) -> io::Result<()> {
    let line = row.line;
    let said = if answer.is_some_and(|answer| readable(row, answer)) {
        ""
    } else {
        ", no such row"
    };
    let values = answer.map_or([0; 8], |answer| answer.values);
    let came = Numbers(&values);
    let awaited = Numbers(&row.values[Row::WANTED..]);
    println!(rt; "line {line}{said}: came{came}")?;
    println!(rt; "  awaited{awaited}")
}

impl fmt::Display for Numbers<'_> {
    fn fmt<W: fmt::Write>(&self, f: &mut fmt::Formatter<W>) -> fmt::Result {
        for number in self.0 {
            if *number < 65536 {
                write!(f, " {number}")?;
            } else {
                write!(f, " {number:08x}")?;
            }
        }
        Ok(())
    }
}
