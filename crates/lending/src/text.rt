// Text for a lent buffer of any length, behind any place: where it ends.
ghost use Rattle.std.specs.Prelude.{◌≡◌, ◌+◌, ◌≤◌, length};
ghost use Rattle.texts.specs.Text.{ascii, digits_max, named, spaced_room, shown_as, pairs_room, PutsBehind};
ghost use Rattle.transcript_parts.specs.Parts.{fields_text, ending_text, fields_room, ending_room};
ghost use Rattle.transcript.specs.Lines.{open_text, submit_text, receive_text, poll_text, end_text};
ghost use Rattle.transcript.specs.Lines.{open_room, submit_room, receive_room, poll_room, end_room};

use command::{Fields, RequestId};
use host_answers::{PollOutcome, Receipt};
use ledger::Ending;
use texts::room::Lent;
use transcript::answers;

fn put(out: &mut [u8], at: usize, text: &[u8]) -> usize
    requires { at + length text.now ≤ length out.old }
    ensures { PutsBehind (length text.now) at text.now out.old out.new result }
{
    let mut room = Lent { out, at };
    texts::put(&mut room, text);
    room.at
}

fn put_named(out: &mut [u8], at: usize, word: &[u8], n: u64) -> usize
    requires { at + (length word.now + digits_max) ≤ length out.old }
    ensures { PutsBehind (length word.now + digits_max) at (named word.now n) out.old out.new result }
{
    let mut room = Lent { out, at };
    texts::put_named(&mut room, word, n);
    room.at
}

fn put_spaced(out: &mut [u8], at: usize, n: u64) -> usize
    requires { at + spaced_room ≤ length out.old }
    ensures { PutsBehind spaced_room at (named (ascii " ") n) out.old out.new result }
{
    let mut room = Lent { out, at };
    texts::put_spaced(&mut room, n);
    room.at
}

fn put_bytes(out: &mut [u8], at: usize, shown: &[u8]) -> usize
    requires { at + (1 + pairs_room shown.now) ≤ length out.old }
    ensures { PutsBehind (1 + pairs_room shown.now) at (shown_as shown.now) out.old out.new result }
{
    let mut room = Lent { out, at };
    texts::put_bytes(&mut room, shown);
    room.at
}

fn put_fields(out: &mut [u8], at: usize, fields: Fields) -> usize
    requires { at + fields_room ≤ length out.old }
    ensures { PutsBehind fields_room at (fields_text fields) out.old out.new result }
{
    let mut room = Lent { out, at };
    transcript_parts::put_fields(&mut room, fields);
    room.at
}

fn put_ending(out: &mut [u8], at: usize, ending: Ending) -> usize
    requires { at + ending_room ≤ length out.old }
    ensures { PutsBehind ending_room at (ending_text ending) out.old out.new result }
{
    let mut room = Lent { out, at };
    transcript_parts::put_ending(&mut room, ending);
    room.at
}

fn put_opened(out: &mut [u8], at: usize, answer: Result<(), u8>) -> usize
    requires { at + open_room ≤ length out.old }
    ensures { PutsBehind open_room at (open_text (λ n. n) answer) out.old out.new result }
{
    let mut room = Lent { out, at };
    answers::put_opened(&mut room, answer);
    room.at
}

fn put_submitted(out: &mut [u8], at: usize, answer: Result<RequestId, u8>) -> usize
    requires { at + submit_room ≤ length out.old }
    ensures { PutsBehind submit_room at (submit_text (λ n. n) answer) out.old out.new result }
{
    let mut room = Lent { out, at };
    answers::put_submitted(&mut room, answer);
    room.at
}

fn put_received(
    out: &mut [u8],
    at: usize,
    answer: Result<Receipt, u8>,
    reply: &[u8],
    handed: &[u8],
) -> usize
    requires { at + receive_room reply.now handed.now ≤ length out.old }
    ensures { PutsBehind (receive_room reply.now handed.now) at (receive_text (λ n. n) answer reply.now handed.now)
        out.old out.new result }
{
    let mut room = Lent { out, at };
    answers::put_received(&mut room, answer, reply, handed);
    room.at
}

fn put_polled(out: &mut [u8], at: usize, answer: Result<PollOutcome, u8>, frame: &[u8]) -> usize
    requires { at + poll_room frame.now ≤ length out.old }
    ensures { PutsBehind (poll_room frame.now) at (poll_text (λ n. n) answer frame.now) out.old out.new result }
{
    let mut room = Lent { out, at };
    answers::put_polled(&mut room, answer, frame);
    room.at
}

fn put_end(out: &mut [u8], at: usize, touched: bool) -> usize
    requires { at + end_room ≤ length out.old }
    ensures { PutsBehind end_room at (end_text touched) out.old out.new result }
{
    let mut room = Lent { out, at };
    answers::put_end(&mut room, touched);
    room.at
}
