// Words, numbers and bytes as text, each put where there is room for it: for the lines of a transcript and of a listing. Each asks
// for room, which the caller has seen to.
// Stays: room is a clause and no type, here and in the crates above: each function uses up another part of it.
#![tactic(auto)]

pub mod room; // where text is put: a vector of fixed room, or a lent buffer behind a place

ghost use Rattle.std.specs.Prelude.{◌≡◌, ◌++◌, ◌+◌, ◌≤◌, ◌<◌, ◌*◌, length, take};
ghost use Rattle.io.specs.Digits.{hex_digit_ascii};
ghost use Rattle.texts.specs.Text.{ascii, decimal, digits_max, short_limit, named, spaced_room, pairs, part_length, shown_as, pairs_room, Puts};

use crate::room::Room;

// How many bytes are shown at once: one check for room and one copy for so many.
const PART_LENGTH: usize = 64;

// A number below this has at most three digits.
const SHORT_LIMIT: u64 = 1000;

// A text as it stands. Public for the crates above, as all that is public here.
// Ruled out: a text that lacks its last byte, and bytes before it that change.
pub fn put<R: Room>(out: &mut R, text: &[u8])
    requires { length (R.text out.old) + length text.now ≤ R.most out.old }
    ensures puts { Puts (length text.now) text.now (R.text out.old) (R.text out.new) }
    ensures stays { (R.most out.new ≡ R.most out.old) × (R.lent out.new ≡ R.lent out.old) }
{
    out.append(text);
}

// A number in decimal, where there is room for its digits.
// Ruled out: a number that lacks its last digit, leading zeros, and 256 as 556.
pub fn put_number<R: Room>(out: &mut R, n: u64)
    requires { length (R.text out.old) + length (decimal n) ≤ R.most out.old }
    ensures puts { Puts (length (decimal n)) (decimal n) (R.text out.old) (R.text out.new) }
    ensures stays { (R.most out.new ≡ R.most out.old) × (R.lent out.new ≡ R.lent out.old) }
{
    if n < SHORT_LIMIT {
        put_short(out, n);
    } else {
        put_long(out, n);
    }
}

// One to three digits, put at once: with the buffer below the lister took a quarter longer.
#[tactic(auto, using(crate::proofs::Putting::one_digit, crate::proofs::Putting::two_digits, crate::proofs::Putting::three_digits))]
fn put_short<R: Room>(out: &mut R, n: u64)
    requires { (n < short_limit) × (length (R.text out.old) + length (decimal n) ≤ R.most out.old) }
    ensures puts { Puts (length (decimal n)) (decimal n) (R.text out.old) (R.text out.new) }
    ensures stays { (R.most out.new ≡ R.most out.old) × (R.lent out.new ≡ R.lent out.old) }
{
    if n < 10 {
        put(out, &[digit(n as u8)]);
    } else if n < 100 {
        put(out, &[digit((n / 10) as u8), digit((n % 10) as u8)]);
    } else {
        let hundreds = (n / 100) as u8;
        let tens = (n / 10 % 10) as u8;
        let ones = (n % 10) as u8;
        put(out, &[digit(hundreds), digit(tens), digit(ones)]);
    }
}

// Any number. Not inlined, so that `put_number` is small enough to be.
// Stays: a buffer and a count, as the kit's `io::decimal` has them, whose contract says the digits.
#[inline(never)]
#[tactic(auto, using(crate::proofs::Putting::digits_of))]
fn put_long<R: Room>(out: &mut R, n: u64)
    requires { length (R.text out.old) + length (decimal n) ≤ R.most out.old }
    ensures puts { Puts (length (decimal n)) (decimal n) (R.text out.old) (R.text out.new) }
    ensures stays { (R.most out.new ≡ R.most out.old) × (R.lent out.new ≡ R.lent out.old) }
{
    let mut digits = [0; 20];
    let count = io::decimal(n, &mut digits);
    put(out, &digits[..count]);
}

// A number behind a word.
// Ruled out: the number before the word, and a space between them that the word does not have.
#[tactic(auto, using(crate::proofs::Putting::digits_within, crate::proofs::Putting::joined))]
pub fn put_named<R: Room>(out: &mut R, word: &[u8], n: u64)
    requires { length (R.text out.old) + (length word.now + digits_max) ≤ R.most out.old }
    ensures puts { Puts (length word.now + digits_max) (named word.now n) (R.text out.old) (R.text out.new) }
    ensures stays { (R.most out.new ≡ R.most out.old) × (R.lent out.new ≡ R.lent out.old) }
{
    put(out, word);
    put_number(out, n);
}

// A number behind a space.
// Ruled out: no space, and a space behind the number.
pub fn put_spaced<R: Room>(out: &mut R, n: u64)
    requires { length (R.text out.old) + spaced_room ≤ R.most out.old }
    ensures puts { Puts spaced_room (named (ascii " ") n) (R.text out.old) (R.text out.new) }
    ensures stays { (R.most out.new ≡ R.most out.old) × (R.lent out.new ≡ R.lent out.old) }
{
    put_named(out, b" ", n);
}

// Bytes as pairs of hexadecimal digits, `-` for none.
// Ruled out: the digits of a byte exchanged, and nothing at all for no bytes.
#[tactic(auto, using(crate::proofs::Putting::shown_none, crate::proofs::Putting::shown_end))]
pub fn put_bytes<R: Room>(out: &mut R, shown: &[u8])
    requires { length (R.text out.old) + (1 + pairs_room shown.now) ≤ R.most out.old }
    ensures puts { Puts (1 + pairs_room shown.now) (shown_as shown.now) (R.text out.old) (R.text out.new) }
    ensures stays { (R.most out.new ≡ R.most out.old) × (R.lent out.new ≡ R.lent out.old) }
{
    if shown.is_empty() {
        return put(out, b"-");
    }
    for part in shown.chunks(PART_LENGTH) {
        put(out, &pairs_of(part)[..2 * part.len()]);
    }
}

// The pairs of a part, at the front of room for the longest.
fn pairs_of(part: &[u8]) -> [u8; 2 * PART_LENGTH]
    requires { length part.now ≤ part_length }
    ensures { take (2 * length part.now) result ≡ pairs part.now }
{
    let mut digits = [0; 2 * PART_LENGTH];
    for (i, byte) in part.iter().enumerate() {
        digits[2 * i] = digit(*byte / 16);
        digits[2 * i + 1] = digit(*byte % 16);
    }
    digits
}

// A lowercase hexadecimal digit.
fn digit(value: u8) -> u8
    requires { value < 16 }
    ensures { result ≡ hex_digit_ascii value }
{
    if value < 10 {
        b'0' + value
    } else {
        b'a' + (value - 10)
    }
}
