// The words and numbers of a listing (document 01, "Capture lister"), each put where there is room for it, in a vector of fixed room or
// a lent buffer: for `listing_lines`, which makes lines of them.
// Stays: text by a match and no Display, since an impl stands beside its type, which knows no listing; a type of its own around each would be
// longer, and the contracts here say how much room is needed too.
#![tactic(auto)]

ghost use Rattle.std.specs.Prelude.{◌≡◌, ◌++◌, ◌+◌, ◌≤◌, ◌<◌, length};
ghost use Rattle.listing_words.specs.Words.{decimal_limit, decimal, word};

use message::header::{ACK, DATA_SEQ, NAK};
pub use texts::put; // bytes as they stand
use texts::put_number;
use texts::room::Room;

// The word of a message's TYPE, and a space. Public for `listing_lines`.
// Ruled out: the words of DATA_SEQ and DATA_NSQ exchanged, and a word without its space.
#[tactic(auto, unfolding(crate::specs::Words::word))]
pub fn put_word<R: Room>(out: &mut R, kind: u8)
    requires { length (R.text out.old) + 4 ≤ R.most out.old }
    ensures puts { (length (R.text out.new) ≡ length (R.text out.old) + 4) × (R.text out.new ≡ R.text out.old ++ word kind) }
    ensures stays { (R.most out.new ≡ R.most out.old) × (R.lent out.new ≡ R.lent out.old) }
{
    match kind {
        ACK => put(out, b"ACK "),
        NAK => put(out, b"NAK "),
        DATA_SEQ => put(out, b"SEQ "),
        _ => put(out, b"NSQ "),
    }
}

// A number in decimal. Public for `listing_lines`.
// Ruled out: leading zeros, and 256 as 556.
// Stays: the clause `n < decimal_limit`, here and in `listing_lines`, may not ask more: callers hand in a SEQ, a LEN or a count, plain numbers.
#[tactic(auto, using(crate::proofs::Laws::same_decimal))]
pub fn put_decimal<R: Room>(out: &mut R, n: usize)
    requires { (length (R.text out.old) + 3 ≤ R.most out.old) × (n < decimal_limit) }
    ensures puts { (length (R.text out.new) ≤ length (R.text out.old) + 3) × (R.text out.new ≡ R.text out.old ++ decimal n) }
    ensures stays { (R.most out.new ≡ R.most out.old) × (R.lent out.new ≡ R.lent out.old) }
{
    put_number(out, n as u64);
}
