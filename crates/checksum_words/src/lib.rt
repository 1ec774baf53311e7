// The checksum of the messages on the line (document 01, "Bytes on the line"): CRC-16/CCITT-FALSE over a slice of bytes.
// What it is, bit by bit, is `specs/Checksum.antt`; laws about it are `proofs/Laws.antt`.
// It is computed by words of eight bytes, with shifts and no table: the bytes are one number, and its remainder is the register.
#![tactic(auto)]

mod long; // words behind four words
mod number; // bytes as one number
mod remainder; // the register that a number leaves
mod words; // words behind two words

ghost use Rattle.std.specs.Prelude.{◌≡◌, ◌+◌, ◌≤◌, length, take};
ghost use Rattle.checksum.specs.Checksum.{checksum_of};
ghost use Rattle.checksum_words.specs.Remainders.{remainder, two_words};

const START: u16 = 0xFFFF;

// The number that leaves the register at the start: it stands in front of up to three bytes.
const START_BEFORE: u32 = 0x84CF;

// The register at the start, added to the first two bytes: of four; of eight; of one in front of a word, and of that word; of two in
// front of a word.
const START_OF_FOUR: u32 = 0xFFFF0000;

const START_OF_EIGHT: u64 = 0xFFFF000000000000;

const START_OF_ONE: u16 = 0xFF;

const START_BEHIND_ONE: u64 = 0xFF00000000000000;

const START_OF_TWO: u16 = 0xFFFF;

// From so many bytes on the words are taken in behind four.
const LONG: usize = 57;

// The checksum of the bytes, of any number; of none it is 0xFFFF.
pub fn checksum(bytes: &[u8]) -> u16
    ensures { result ≡ checksum_of bytes.now }
{
    let length = bytes.len();
    if length == 4 {
        return remainder::of_half(number::half(bytes, 0) ^ START_OF_FOUR);
    }
    if 8 < length {
        return many(bytes);
    }
    if length == 8 {
        return remainder::of_word(number::word(bytes, 0) ^ START_OF_EIGHT);
    }
    few(bytes)
}

// Of seven bytes at most.
fn few(bytes: &[u8]) -> u16
    requires { length bytes.now ≤ 7 }
    ensures { result ≡ checksum_of bytes.now }
{
    if 4 <= bytes.len() {
        let first = number::half(bytes, 0) ^ START_OF_FOUR;
        return remainder::of_word(number::behind(first, &bytes[4..]));
    }
    if bytes.is_empty() {
        return START; // no final change
    }
    remainder::of_word(number::behind(START_BEFORE, bytes))
}

// Of nine bytes at least: so many in front that words of eight are left.
fn many(bytes: &[u8]) -> u16
    requires { 9 ≤ length bytes.now }
    ensures { result ≡ checksum_of bytes.now }
{
    if bytes.len() == 9 {
        return remainder::of_near(
            bytes[0] as u16 ^ START_OF_ONE,
            number::word(bytes, 1) ^ START_BEHIND_ONE,
        );
    }
    if bytes.len() == 10 {
        return remainder::of_near(
            number::pair(bytes, 0) ^ START_OF_TWO,
            number::word(bytes, 2),
        );
    }
    let odd = (bytes.len() - 1) % 8;
    let first = front(bytes, odd);
    let rest = &bytes[odd + 9..];
    if bytes.len() < LONG {
        return words::after(first, rest);
    }
    long::after(first, rest)
}

// The first odd + 1 bytes, and the word behind them.
fn front(bytes: &[u8], odd: usize) -> words::Two
    requires { (odd ≤ 7) × (odd + 9 ≤ length bytes.now) }
    ensures { remainder 128 (two_words result.high result.low) ≡ checksum_of (take (odd + 9) bytes.now) }
{
    let bits = 8 * odd as u64;
    words::Two {
        high: (number::word(bytes, 0) ^ START_OF_EIGHT) >> (56 - bits),
        low: number::word(bytes, odd + 1) ^ (START_BEHIND_ONE << bits),
    }
}
