// The register that a number leaves: with x^16 behind it, its remainder by x^16 + x^12 + x^5 + 1.
// The shifts first divide by the polynomial, by one power of it after another, and then multiply by it.
ghost use Rattle.std.specs.Prelude.{◌≡◌};
ghost use Rattle.checksum_words.specs.Remainders.{remainder, two_words};

// 2^48 + 2^20 + 1
const NEAR: u64 = 0x1000000100001;

// Of 32 bits.
pub(crate) fn of_half(a: u32) -> u16
    ensures { result ≡ remainder 32 a }
{
    let b = a ^ (a >> 4) ^ (a >> 11) ^ (a >> 16);
    let c = b ^ (b >> 8) ^ (b >> 22);
    let q = c ^ (c >> 16);
    ((q ^ (q << 5) ^ (q << 12)) % 65536) as u16
}

// Of 64 bits.
pub(crate) fn of_word(a: u64) -> u16
    ensures { result ≡ remainder 64 a }
{
    let b = a ^ (a >> 4) ^ (a >> 11) ^ (a >> 16);
    let c = b ^ (b >> 8) ^ (b >> 22) ^ (b >> 32);
    let d = c ^ (c >> 16) ^ (c >> 44);
    let q = d ^ (d >> 32);
    ((q ^ (q << 5) ^ (q << 12)) % 65536) as u16
}

// Of two words: the first, as what it adds to the second.
pub(crate) fn of_two(high: u64, low: u64) -> u16
    ensures { result ≡ remainder 128 (two_words high low) }
{
    let t = high ^ (high >> 32);
    let q = t ^ (t >> 16) ^ (t >> 44);
    of_word(low ^ (q ^ (q << 20) ^ (q << 48)))
}

// Of a word behind 16 bits: no two of its shifts meet, so that one product is their sum.
pub(crate) fn of_near(high: u16, low: u64) -> u16
    ensures { result ≡ remainder 128 (two_words high low) }
{
    of_word(low ^ high as u64 * NEAR)
}
