// What the bare calls are made of: words, remainders, the word nearest to a number by the table. The tables are in the crates
// `lookup` and `fours`.
ghost use Rattle.std.specs.Prelude.{◌≡◌, ◌/◌, ◌%◌, ◌*◌, ◌^◌, ◌<◌};
ghost use Rattle.golay.specs.Code.{check, remainder, word23, word24, nearest, Patterns};

// The word of 23 bits.
pub fn header_word(i: u32) -> u32
    requires { i < 4096 }
    ensures { result ≡ word23 i }
{
    i + lookup::check(i) % 2048 * 4096
}

// The word of 24 bits.
pub fn data_word(i: u32) -> u32
    requires { i < 4096 }
    ensures { result ≡ word24 i }
{
    i + lookup::check(i) * 4096
}

// The remainder of 23 bits: 0 exactly for a word.
pub fn remainder(n: u32) -> u32
    requires { n < 2 ^ 23 }
    ensures { result ≡ remainder n }
{
    lookup::check(n % 4096) % 2048 ^ n / 4096
}

// The word nearest to 23 bits, by the table of patterns and their remainder.
pub fn corrected(patterns: &[u32], n: u32, r: u32) -> u32
    requires patterns { Patterns patterns.now }
    requires n_bound { n < 2 ^ 23 }
    requires r_value { r ≡ remainder n }
    ensures { result ≡ word23 (nearest word23 n) }
{
    n ^ patterns[r as usize]
}
