// The buffers that a call is lent: filled before it, shown as far as it says it put bytes there, and looked at behind that.
ghost use Rattle.std.specs.Prelude.{◌≡◌, ◌≤◌, length, take, drop};
ghost use Rattle.script.specs.Limits.{lent_max};
ghost use Rattle.runner.specs.Lent.{touched, receive_line, poll_line};

use crate::sheet::Line;
use host_answers::{PollAnswer, ReceiveAnswer};
use lent_lengths::{data_length, frame_length, reply_length};
use script::calls::LENT_MAX;
use transcript::answers::{put_end, put_polled, put_received};

// What the lent buffers are filled with.
const FILL: u8 = 0xEE;

// A buffer to lend a part of, filled. The `ensures` gives only its length, which lending a part needs.
pub(crate) fn filled() -> [u8; LENT_MAX]
    ensures { lent_max ≡ length result }
{
    [FILL; LENT_MAX]
}

// Makes a line of a receive, from its answer and the buffers as it left them.
// Stays: the clause `.. ≤ lent_max`, here and in `running`: numbers of a script there, parts of an array here; a type for each would be longer.
#[tactic(auto, unfolding(crate::specs::Lent::receive_line))]
pub(crate) fn put_receive(line: &mut Line, answer: ReceiveAnswer, reply: &[u8], buffer: &[u8])
    requires reply { length reply.now ≤ lent_max }
    requires buffer { length buffer.now ≤ lent_max }
    ensures { line.new.items ≡ receive_line answer reply.now buffer.now }
{
    let (shown, behind) = parted(reply, reply_length(answer));
    let (handed, past) = parted(buffer, data_length(answer));
    line.clear();
    put_received(line, answer, shown, handed);
    put_end(line, is_touched(behind) || is_touched(past));
}

// Makes a line of a poll, from its answer and the output as it left it.
#[tactic(auto, unfolding(crate::specs::Lent::poll_line))]
pub(crate) fn put_poll(line: &mut Line, answer: PollAnswer, output: &[u8])
    requires { length output.now ≤ lent_max }
    ensures { line.new.items ≡ poll_line answer output.now }
{
    let (shown, behind) = parted(output, frame_length(answer));
    line.clear();
    put_polled(line, answer, shown);
    put_end(line, is_touched(behind));
}

// The front of a buffer, of a length that a call answered or all of it, and what is behind.
fn parted(buffer: &[u8], len: usize) -> (&[u8], &[u8])
    ensures front { result.0.now ≡ take len buffer.now }
    ensures behind { result.1.now ≡ drop len buffer.now }
{
    buffer.split_at(len.min(buffer.len()))
}

// Whether any of these bytes is not what it was filled with.
fn is_touched(bytes: &[u8]) -> bool
    ensures { result ≡ touched bytes.now }
{
    bytes.iter().any(|byte| *byte != FILL)
}
