// The lines of a listing (document 01, "Capture lister"), each put where there is room for it.
// Stays: text by a match and no Display, since an impl stands beside its type, which knows no listing; a type of its own around each would be
// longer, and the contracts here say how much room is needed too.
// Stays: room is a clause, as in `texts`.
ghost use Rattle.std.specs.Prelude.{◌≡◌, ◌++◌, ◌+◌, ◌≤◌, ◌<◌, length};
ghost use Rattle.message.specs.Items.{message as frame};
ghost use Rattle.message.specs.Promises.{item_of};
ghost use Rattle.listing_words.specs.Words.{decimal_limit};
ghost use Rattle.listing_lines.specs.Text.{line_of, end_of, line_room, len_of};

use listing_words::{put, put_decimal, put_word};
use message::Item;
use texts::room::Room;

// Room for a line, its end included, in bytes.
pub(crate) const LINE_ROOM: usize = 16;

// The line of an item.
#[tactic(auto, unfolding(crate::specs::Text::line_of))]
pub(crate) fn put_line<R: Room>(out: &mut R, item: Item)
    requires { (length (R.text out.old) + line_room ≤ R.most out.old) × (len_of (item_of item) < decimal_limit) }
    ensures puts { (length (R.text out.new) ≤ R.most out.old) × (R.text out.new ≡ R.text out.old ++ line_of (item_of item)) }
    ensures stays { (R.most out.new ≡ R.most out.old) × (R.lent out.new ≡ R.lent out.old) }
{
    match item {
        Item::DamagedHeader => put(out, b"BADHEAD\n"),
        Item::DamagedPayload => put(out, b"BADBODY\n"),
        Item::Forbidden => put(out, b"FORBIDDEN\n"),
        Item::Message { kind, seq, len } => put_message(out, kind, seq.0, len),
    }
}

#[tactic(auto, unfolding(crate::specs::Text::line_of))]
fn put_message<R: Room>(out: &mut R, kind: u8, seq: u8, len: usize)
    requires { (length (R.text out.old) + line_room ≤ R.most out.old) × (len < decimal_limit) }
    ensures puts { (length (R.text out.new) ≤ R.most out.old) × (R.text out.new ≡ R.text out.old ++ line_of (frame kind seq len)) }
    ensures stays { (R.most out.new ≡ R.most out.old) × (R.lent out.new ≡ R.lent out.old) }
{
    put_word(out, kind);
    put_decimal(out, seq as usize);
    put(out, b" ");
    put_decimal(out, len);
    put(out, b"\n");
}

// The last line: `end` and the held count. Public for `listing`.
// Ruled out: a count without its line's end, and bytes before it that change.
#[tactic(auto, unfolding(crate::specs::Text::end_of))]
pub fn put_end<R: Room>(out: &mut R, held: usize)
    requires { (length (R.text out.old) + line_room ≤ R.most out.old) × (held < decimal_limit) }
    ensures puts { (length (R.text out.new) ≤ R.most out.old) × (R.text out.new ≡ R.text out.old ++ end_of held) }
    ensures stays { (R.most out.new ≡ R.most out.old) × (R.lent out.new ≡ R.lent out.old) }
{
    put(out, b"end ");
    put_decimal(out, held);
    put(out, b"\n");
}
