// What an end of the line puts into a lent buffer: the frame of a command, and replies (document 01, **Receive**, **Poll** 3). Both
// ends send so.
#![tactic(auto)]

ghost use Rattle.std.specs.Prelude.{[], ◌≤◌, length};
ghost use Rattle.message.specs.Bytes.{message, total, max_len, ack, nak, data_seq};
ghost use Rattle.command.specs.Payload.{max_data, payload};
ghost use Rattle.command.specs.Promises.{fields_of};
ghost use Rattle.frames.specs.Promises.{Put};

use command::Head;
use message::Seq;
use message::header::{ACK, DATA_SEQ, HEADER_LENGTH, NAK};

// Puts the frame of a command at the front of the output, as DATA_SEQ, and answers its length. For the ends of the line, which lend
// room for the longest message and have refused data that is too long.
// Ruled out: another TYPE or SEQ, and a byte touched behind the frame.
// Stays: the clause `total max_len ≤ length output.old` may not ask more: callers lend a buffer of any length from 266 on, and an array
// has one length. `host_sending` and `host_polling`, which hand the buffer on, repeat it.
// Stays: the clause `length «data».now ≤ max_data` may not ask more: callers hand in a slice, and a type around it would ask them for one.
pub fn put_command(output: &mut [u8], seq: Seq, head: Head, data: &[u8]) -> usize
    requires { (total max_len ≤ length output.old) × (length «data».now ≤ max_data) }
    ensures { Put result (message data_seq seq.0 (payload (fields_of head.fields) head.id.0 «data».now))
        output.old output.new }
{
    let len = command::writer::write(&mut output[HEADER_LENGTH..], head, data);
    message_writer::write_around(output, 0, DATA_SEQ, seq, len).unwrap()
}

// Puts an ACK with this SEQ at the front of the reply, and answers its length. For the ends of the line, which lend room for it.
// Ruled out: an ACK with another SEQ, and a reply of more than its ten bytes.
// Stays: the clause `total 0 ≤ length reply.old` may not ask more: callers lend a buffer of any length from ten on, and an array has one length.
pub fn put_ack(reply: &mut [u8], seq: Seq) -> usize
    requires { total 0 ≤ length reply.old }
    ensures { Put result (message ack seq.0 []) reply.old reply.new }
{
    message_writer::write(reply, 0, ACK, seq, b"").unwrap()
}

// Puts a NAK at the front of the reply ("A written NAK has SEQ 0"), and answers its length. For the ends of the line likewise.
// Ruled out: a NAK with the SEQ of the damaged message, and an ACK in its place.
// Stays: the clause `total 0 ≤ length reply.old`, likewise.
pub fn put_nak(reply: &mut [u8]) -> usize
    requires { total 0 ≤ length reply.old }
    ensures { Put result (message nak 0 []) reply.old reply.new }
{
    message_writer::write(reply, 0, NAK, Seq(0), b"").unwrap()
}
