// The parts of an answer as text, each put where there is room for it.
// Stays: text by a match and no Display, since an impl stands beside its type, which knows no transcript; a type of its own around each would be
// longer, and the contracts here say how much room is needed too.
// Stays: room is a clause, as in `texts`.
ghost use Rattle.std.specs.Prelude.{◌≡◌, ◌+◌, ◌≤◌, length};
ghost use Rattle.texts.specs.Text.{Puts};
ghost use Rattle.transcript.specs.Lines.{one_text, item_text, command_text, word_text, lent_text, ended_text};
ghost use Rattle.transcript.specs.Lines.{item_room, command_room, word_room, lent_room, ended_room};

use ledger::{Command, Ending, Word};
use message::{Item, Seq};
use texts::room::Room;
use texts::{put, put_bytes, put_named, put_spaced};
use transcript_parts::{put_ending, put_fields};

// The item, or `more`.
#[tactic(auto, unfolding(crate::specs::Lines::item_text))]
pub(crate) fn put_item<R: Room>(out: &mut R, answer: Option<Item>)
    requires { length (R.text out.old) + item_room ≤ R.most out.old }
    ensures puts { Puts item_room (item_text answer) (R.text out.old) (R.text out.new) }
    ensures stays { (R.most out.new ≡ R.most out.old) × (R.lent out.new ≡ R.lent out.old) }
{
    match answer {
        None => put(out, b"more"),
        Some(item) => put_one(out, item),
    }
}

#[tactic(auto, unfolding(crate::specs::Lines::one_text))]
fn put_one<R: Room>(out: &mut R, item: Item)
    requires { length (R.text out.old) + item_room ≤ R.most out.old }
    ensures puts { Puts item_room (one_text item) (R.text out.old) (R.text out.new) }
    ensures stays { (R.most out.new ≡ R.most out.old) × (R.lent out.new ≡ R.lent out.old) }
{
    match item {
        Item::DamagedHeader => put(out, b"damaged-header"),
        Item::Forbidden => put(out, b"forbidden"),
        Item::DamagedPayload => put(out, b"damaged-payload"),
        Item::Message { kind, seq, len } => put_message(out, kind, seq, len),
    }
}

#[tactic(auto, unfolding(crate::specs::Lines::one_text))]
fn put_message<R: Room>(out: &mut R, kind: u8, seq: Seq, len: usize)
    requires { length (R.text out.old) + item_room ≤ R.most out.old }
    ensures puts { Puts item_room (one_text (Item.Message kind seq len)) (R.text out.old) (R.text out.new) }
    ensures stays { (R.most out.new ≡ R.most out.old) × (R.lent out.new ≡ R.lent out.old) }
{
    put_named(out, b"message ", kind as u64);
    put_spaced(out, seq.0 as u64);
    put_spaced(out, len as u64);
}

// The word that a message earned, or that it earned none.
#[tactic(auto, unfolding(crate::specs::Lines::word_text))]
pub(crate) fn put_word<R: Room>(out: &mut R, word: Option<Word>)
    requires { length (R.text out.old) + word_room ≤ R.most out.old }
    ensures puts { Puts word_room (word_text word) (R.text out.old) (R.text out.new) }
    ensures stays { (R.most out.new ≡ R.most out.old) × (R.lent out.new ≡ R.lent out.old) }
{
    match word {
        None => put(out, b" none"),
        Some(Word::Stray) => put(out, b" stray"),
        Some(Word::Repeat) => put(out, b" repeat"),
        Some(Word::NotCommand) => put(out, b" not-a-command"),
        Some(Word::Event(it)) => put_command(out, b" event", it),
        Some(Word::Response(it)) => put_command(out, b" response", it),
        Some(Word::Unmatched(it)) => put_command(out, b" unmatched", it),
    }
}

// A command behind its word: TC, TID, SID, IID, CID, RQID and the length of its data.
#[tactic(auto, unfolding(crate::specs::Lines::command_text))]
fn put_command<R: Room>(out: &mut R, word: &[u8], it: Command)
    requires { length (R.text out.old) + command_room word.now ≤ R.most out.old }
    ensures puts { Puts (command_room word.now) (command_text word.now it) (R.text out.old) (R.text out.new) }
    ensures stays { (R.most out.new ≡ R.most out.old) × (R.lent out.new ≡ R.lent out.old) }
{
    let fields = it.fields;
    let id = it.id;
    put(out, word);
    put_fields(out, fields);
    put_spaced(out, id.0 as u64);
    put_spaced(out, it.len as u64);
}

// A length and bytes behind a name.
#[tactic(auto, unfolding(crate::specs::Lines::lent_text))]
pub(crate) fn put_lent<R: Room>(out: &mut R, name: &[u8], len: usize, shown: &[u8])
    requires { length (R.text out.old) + lent_room name.now shown.now ≤ R.most out.old }
    ensures puts { Puts (lent_room name.now shown.now) (lent_text name.now len shown.now) (R.text out.old) (R.text out.new) }
    ensures stays { (R.most out.new ≡ R.most out.old) × (R.lent out.new ≡ R.lent out.old) }
{
    put_named(out, name, len as u64);
    put(out, b" ");
    put_bytes(out, shown);
}

// The ending that a receive reports, if any.
#[tactic(auto, unfolding(crate::specs::Lines::ended_text))]
pub(crate) fn put_ended<R: Room>(out: &mut R, ended: Option<Ending>)
    requires { length (R.text out.old) + ended_room ≤ R.most out.old }
    ensures puts { Puts ended_room (ended_text ended) (R.text out.old) (R.text out.new) }
    ensures stays { (R.most out.new ≡ R.most out.old) × (R.lent out.new ≡ R.lent out.old) }
{
    match ended {
        None => put(out, b" no-ending"),
        Some(ending) => {
            put(out, b" ");
            put_ending(out, ending);
        }
    }
}
