// The table of patterns in rows of `match`, four entries to a number: nothing is set up where it is used. The crate `lookup`
// has the table as one constant, since document 01, section 1, asks for that.
//
// rows    the rows
#![tactic(auto)]

ghost use Rattle.std.specs.Prelude.{◌≡◌, ◌<◌, get_or};
ghost use Rattle.golay.proofs.Fours.{four, entry_of};
ghost use Rattle.golay.proofs.Rule.{patterns};

mod rows;

// The pattern of a remainder, which is that table's: its first twelve bits, what is flipped of the information, and 4,096 times how many
// bits are flipped in all.
pub fn entry(r: u32) -> u32
    requires { r < 2048 }
    ensures { result ≡ entry_of (get_or patterns r 0) }
{
    ((four(r / 4) >> r % 4 * 16) % 65536) as u32
}

// The four patterns from 4 k on.
#[tactic(auto, unfolding(golay::proofs::Fours::four))]
fn four(k: u32) -> u64
    requires { k < 512 }
    ensures { result ≡ four k }
{
    let at = k % 64;
    match k / 64 {
        0 => rows::row_0(at),
        1 => rows::row_1(at),
        2 => rows::row_2(at),
        3 => rows::row_3(at),
        4 => rows::row_4(at),
        5 => rows::row_5(at),
        6 => rows::row_6(at),
        _ => rows::row_7(at),
    }
}
