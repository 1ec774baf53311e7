// Words of eight bytes behind two words, which stand for the register.
ghost use Rattle.std.specs.Prelude.{◌≡◌, ◌%◌, length};
ghost use Rattle.checksum.specs.Checksum.{checksum_from};
ghost use Rattle.checksum_words.specs.Remainders.{remainder, two_words};

use crate::{number, remainder};

// A number of 128 bits.
#[derive(Drop)]
pub(crate) struct Two {
    pub high: u64,
    pub low: u64,
}

// The register after words behind the two.
pub(crate) fn after(first: Two, bytes: &[u8]) -> u16
    requires { length bytes.now % 8 ≡ 0 }
    ensures { result ≡ checksum_from (remainder 128 (two_words first.high first.low)) bytes.now }
{
    let mut two = first;
    let (words, _) = bytes.as_chunks::<8>();
    for word in words {
        // Stays: `number::word` and no `from_be_bytes`, whose contract does not speak of `number`, in which the loop's proof is.
        two = with_word(two, number::word(word, 0));
    }
    remainder::of_two(two.high, two.low)
}

// One word more behind the two: the first of the three, as what it adds to the others.
pub(crate) fn with_word(two: Two, word: u64) -> Two
    ensures { remainder 128 (two_words result.high result.low) ≡ remainder 192 (two_words (two_words two.high two.low) word) }
{
    let q = two.high ^ (two.high >> 32);
    Two {
        high: two.low ^ ((q << 32) ^ (q >> 24)),
        low: word ^ (q ^ (q << 40)),
    }
}
