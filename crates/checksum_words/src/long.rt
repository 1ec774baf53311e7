// Words of eight bytes behind four words, which stand for the register: a shorter chain from word to word than behind two.
ghost use Rattle.std.specs.Prelude.{◌≡◌, ◌%◌, length};
ghost use Rattle.checksum.specs.Checksum.{checksum_from};
ghost use Rattle.checksum_words.specs.Remainders.{remainder, two_words, four_words};

use crate::words::{Two, with_word};
use crate::{number, remainder};

// A number of 256 bits.
#[derive(Drop)]
struct Four {
    a: u64,
    b: u64,
    c: u64,
    d: u64,
}

// The register after words behind two.
// Stays: a loop beside that of `words::after`: a trait with the step and the end of both, and their laws, would be longer.
pub(crate) fn after(first: Two, bytes: &[u8]) -> u16
    requires { length bytes.now % 8 ≡ 0 }
    ensures { result ≡ checksum_from (remainder 128 (two_words first.high first.low)) bytes.now }
{
    let mut four = Four {
        a: 0,
        b: 0,
        c: first.high,
        d: first.low,
    };
    let (words, _) = bytes.as_chunks::<8>();
    for word in words {
        // Stays: `number::word`, as in `words::after`.
        four = with_next(four, number::word(word, 0));
    }
    of_four(four)
}

// One word more behind the four: the first of the five, as what it adds to the others.
fn with_next(four: Four, word: u64) -> Four
    ensures { remainder 256 (four_words result.a result.b result.c result.d)
        ≡ remainder 320 (two_words (four_words four.a four.b four.c four.d) word) }
{
    Four {
        a: four.b ^ four.a,
        b: four.c ^ (four.a >> 48),
        c: four.d ^ (four.a << 16),
        d: word ^ four.a,
    }
}

// The register that four words leave.
fn of_four(four: Four) -> u16
    ensures { result ≡ remainder 256 (four_words four.a four.b four.c four.d) }
{
    let two = with_word(
        Two {
            high: four.a,
            low: four.b,
        },
        four.c,
    );
    let last = with_word(two, four.d);
    remainder::of_two(last.high, last.low)
}
