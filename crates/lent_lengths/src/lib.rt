// How many bytes an answer says that the call has put into a lent buffer (docs/SESSION-SCRIPT.md): for `runner`, which shows those
// bytes and looks behind them. A refused answer has none, whatever it is refused by: a number, or a case of the table.
#![tactic(auto)]

ghost use Rattle.std.specs.Prelude.{◌≡◌};
ghost use Rattle.lent_lengths.specs.Lengths.{handed_by, reply_length, data_length, frame_length};

use host_answers::{PollOutcome, Receipt};
use ledger::Word;

// How many bytes of the reply buffer a receive says it has put. Public for `runner`.
// Ruled out: bytes said of a refused call, and the bytes taken in place of the reply.
#[tactic(auto, unfolding(crate::specs::Lengths::reply_length))]
pub fn reply_length<E: Drop>(answer: Result<Receipt, E>) -> usize
    ensures { result ≡ reply_length answer }
{
    match answer {
        Ok(receipt) => receipt.replied,
        Err(_) => 0,
    }
}

// How many bytes of the data buffer. Public for `runner`.
// Ruled out: bytes said of an unmatched command, and none said of an event.
#[tactic(auto, unfolding(crate::specs::Lengths::data_length))]
pub fn data_length<E: Drop>(answer: Result<Receipt, E>) -> usize
    ensures { result ≡ data_length answer }
{
    match answer {
        Ok(receipt) => handed_by(receipt.word),
        Err(_) => 0,
    }
}

#[tactic(auto, unfolding(crate::specs::Lengths::handed_by))]
fn handed_by(word: Option<Word>) -> usize
    ensures { result ≡ handed_by word }
{
    match word {
        Some(Word::Event(it) | Word::Response(it)) => it.len,
        _ => 0,
    }
}

// How many bytes of the output a poll says it has put. Public for `runner`.
// Ruled out: a byte said where nothing was sent, and the time of a quiet poll in place of a length.
#[tactic(auto, unfolding(crate::specs::Lengths::frame_length))]
pub fn frame_length<E: Drop>(answer: Result<PollOutcome, E>) -> usize
    ensures { result ≡ frame_length answer }
{
    match answer {
        Ok(PollOutcome::Sent(len)) => len,
        Ok(PollOutcome::Ended(_)) | Err(_) => 0,
        Ok(PollOutcome::Quiet(_)) => 0,
    }
}
