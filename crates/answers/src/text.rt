// Lines of a record's number and its answer, put into a buffer.
ghost use Rattle.std.specs.Prelude.{◌≡◌, ◌+◌, ◌*◌, ◌≤◌, ◌<◌, length, take};
ghost use Rattle.std.proofs.lemmas.List.Edits.{sets};
ghost use Rattle.answers.specs.Text.{decimal, line, lines};

// Puts a line for each answer, numbered from `first` on, at the front of the buffer, and answers how many bytes they are.
pub fn put_lines(out: &mut [u8], first: u64, answers: &[u8]) -> usize
    requires answers_in_bounds { 42 * length answers.now ≤ length out.old }
    requires answers_bound { first + length answers.now < 18446744073709551616 }
    ensures out_after { take result out.new ≡ lines first answers.now }
    ensures upper_bound { result ≤ length out.new }
{
    let mut len = 0;
    for (k, answer) in answers.iter().enumerate() {
        len = put_line(out, len, first + k as u64, *answer);
    }
    len
}

// Puts a line at a place of the buffer, and answers the place behind it.
fn put_line(out: &mut [u8], at: usize, number: u64, answer: u8) -> usize
    requires { at + 42 ≤ length out.old }
    ensures value { result ≡ at + length (line number answer) }
    ensures out_after { out.new ≡ sets out.old at (line number answer) }
{
    let behind = spell(out, at, number);
    out[behind] = b' ';
    let end = spell(out, behind + 1, answer as u64);
    out[end] = b'\n';
    end + 1
}

// Puts a number's decimal digits at a place of the buffer, and answers the place behind them.
fn spell(out: &mut [u8], at: usize, n: u64) -> usize
    requires { at + 20 ≤ length out.old }
    ensures value { result ≡ at + length (decimal n) }
    ensures out_after { out.new ≡ sets out.old at (decimal n) }
{
    let mut buffer = itoa::Buffer::new();
    let digits = buffer.format(n).as_bytes();
    let end = at + digits.len();
    out[at..end].copy_from_slice(digits);
    end
}
