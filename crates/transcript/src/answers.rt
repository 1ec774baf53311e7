// The answer to each call as a line of text, put where there is room for it: in a vector of fixed room, or in a lent buffer behind a
// place. Each asks for room, which the caller has seen to. A refusal is of any type that has numbers.
// Stays: text by a match and no Display, since an impl stands beside its type, which knows no transcript; a type of its own around each would be
// longer, and the contracts here say how much room is needed too.
ghost use Rattle.std.specs.Prelude.{◌≡◌, ◌+◌, ◌≤◌, length};
ghost use Rattle.texts.specs.Text.{Puts};
ghost use Rattle.transcript.specs.Lines.{open_text, submit_text, judged_text, receipt_text, receive_text, poll_text, end_text};
ghost use Rattle.transcript.specs.Lines.{open_room, submit_room, judged_room, receive_room, poll_room, end_room};

use crate::numbers::Numbered;
use crate::parts::{put_ended, put_item, put_lent, put_word};
use command::RequestId;
use host_answers::{PollOutcome, Receipt};
use ledger::Word;
use message::Item;
use texts::room::Room;
use texts::{put, put_named};
use transcript_parts::put_ending;

// Open.
// Ruled out: `opened` where it was refused, and a refusal's number over 6 shown as 6.
#[tactic(auto, unfolding(crate::specs::Lines::open_text))]
pub fn put_opened<R: Room, E: Numbered>(out: &mut R, answer: Result<(), E>)
    requires { length (R.text out.old) + open_room ≤ R.most out.old }
    ensures puts { Puts open_room (open_text E.number answer) (R.text out.old) (R.text out.new) }
    ensures stays { (R.most out.new ≡ R.most out.old) × (R.lent out.new ≡ R.lent out.old) }
{
    match answer {
        Ok(()) => put(out, b"opened"),
        Err(refusal) => put_named(out, b"open refused ", refusal.number() as u64),
    }
}

// Submit.
// Ruled out: a refusal's number shown as the request ID, and one over 6 shown as 6.
#[tactic(auto, unfolding(crate::specs::Lines::submit_text))]
pub fn put_submitted<R: Room, E: Numbered>(out: &mut R, answer: Result<RequestId, E>)
    requires { length (R.text out.old) + submit_room ≤ R.most out.old }
    ensures puts { Puts submit_room (submit_text E.number answer) (R.text out.old) (R.text out.new) }
    ensures stays { (R.most out.new ≡ R.most out.old) × (R.lent out.new ≡ R.lent out.old) }
{
    match answer {
        Ok(id) => put_named(out, b"submitted ", id.0 as u64),
        Err(refusal) => put_named(out, b"submit refused ", refusal.number() as u64),
    }
}

// Receive, with the reply and the data that are to be shown.
// Ruled out: the data's bytes shown as the reply, and a line without its ending.
#[tactic(auto, unfolding(crate::specs::Lines::receive_text))]
pub fn put_received<R: Room, E: Numbered>(
    out: &mut R,
    answer: Result<Receipt, E>,
    reply: &[u8],
    handed: &[u8],
)
    requires { length (R.text out.old) + receive_room reply.now handed.now ≤ R.most out.old }
    ensures puts { Puts (receive_room reply.now handed.now) (receive_text E.number answer reply.now handed.now) (R.text out.old) (R.text out.new) }
    ensures stays { (R.most out.new ≡ R.most out.old) × (R.lent out.new ≡ R.lent out.old) }
{
    match answer {
        Ok(receipt) => put_receipt(out, receipt, reply, handed),
        Err(refusal) => put_named(out, b"receive refused ", refusal.number() as u64),
    }
}

#[tactic(auto, unfolding(crate::specs::Lines::receipt_text))]
fn put_receipt<R: Room>(out: &mut R, receipt: Receipt, reply: &[u8], handed: &[u8])
    requires { length (R.text out.old) + receive_room reply.now handed.now ≤ R.most out.old }
    ensures puts { Puts (receive_room reply.now handed.now) (receipt_text receipt reply.now handed.now) (R.text out.old) (R.text out.new) }
    ensures stays { (R.most out.new ≡ R.most out.old) × (R.lent out.new ≡ R.lent out.old) }
{
    let item = receipt.item;
    let word = receipt.word;
    let ending = receipt.ending;
    put_judged(out, item, word);
    put_named(out, b" taken ", receipt.taken as u64);
    put_lent(out, b" reply ", receipt.replied, reply);
    put_lent(out, b" data ", handed.len(), handed);
    put_ended(out, ending);
}

#[tactic(auto, unfolding(crate::specs::Lines::judged_text))]
fn put_judged<R: Room>(out: &mut R, item: Option<Item>, word: Option<Word>)
    requires { length (R.text out.old) + judged_room ≤ R.most out.old }
    ensures puts { Puts judged_room (judged_text item word) (R.text out.old) (R.text out.new) }
    ensures stays { (R.most out.new ≡ R.most out.old) × (R.lent out.new ≡ R.lent out.old) }
{
    put(out, b"received ");
    put_item(out, item);
    put_word(out, word);
}

// Poll, with the frame that is to be shown.
// Ruled out: a frame without its length, and quiet for a time where there is no deadline.
#[tactic(auto, unfolding(crate::specs::Lines::poll_text))]
pub fn put_polled<R: Room, E: Numbered>(out: &mut R, answer: Result<PollOutcome, E>, frame: &[u8])
    requires { length (R.text out.old) + poll_room frame.now ≤ R.most out.old }
    ensures puts { Puts (poll_room frame.now) (poll_text E.number answer frame.now) (R.text out.old) (R.text out.new) }
    ensures stays { (R.most out.new ≡ R.most out.old) × (R.lent out.new ≡ R.lent out.old) }
{
    match answer {
        Ok(PollOutcome::Sent(len)) => put_lent(out, b"sent ", len, frame),
        Ok(PollOutcome::Ended(ending)) => put_ending(out, ending),
        Ok(PollOutcome::Quiet(Some(ms))) => put_named(out, b"quiet ", ms),
        Ok(PollOutcome::Quiet(None)) => put(out, b"no-deadline"),
        Err(refusal) => put_named(out, b"poll refused ", refusal.number() as u64),
    }
}

// The end of a line: whether the call touched bytes that it should not have.
// Ruled out: a line without its end, and ` touched` where nothing was.
#[tactic(auto, unfolding(crate::specs::Lines::end_text))]
pub fn put_end<R: Room>(out: &mut R, touched: bool)
    requires { length (R.text out.old) + end_room ≤ R.most out.old }
    ensures puts { Puts end_room (end_text touched) (R.text out.old) (R.text out.new) }
    ensures stays { (R.most out.new ≡ R.most out.old) × (R.lent out.new ≡ R.lent out.old) }
{
    if touched {
        return put(out, b" touched\n");
    }
    put(out, b"\n");
}
