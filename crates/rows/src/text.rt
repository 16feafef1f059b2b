// All of the rows, as a reader gives them.
ghost use Rattle.std.specs.Prelude.{◌<◌, ◌≤◌, length, take, IfOk};
ghost use Rattle.std.specs.Io.KnownBytes.{Consumes, IsAtEnd};

use std::io;
use std::io::Read;

// Reads until the room is full or the text ends, and answers how many bytes came. The loop stays a `while`: how many bytes a read gives
// is the reader's to say, so that an iterator would be no plainer.
pub fn filled<R: Read>(input: &mut R, room: &mut [u8]) -> io::Result<usize>
    ensures bound { IfOk result (λ n. n ≤ length room.new) }
    ensures bytes { IfOk result (λ n. Consumes (R.remaining input.old) (R.remaining input.new) (take n room.new)) }
    ensures end { IfOk result (λ n. n < length room.new → IsAtEnd (R.remaining input.new)) }
{
    let mut len: usize = 0;
    while len < room.len() {
        let more = input.read(&mut room[len..])?;
        if more == 0 {
            break;
        }
        len += more;
    }
    Ok(len)
}
