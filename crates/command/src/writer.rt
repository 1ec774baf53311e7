// The command writer (document 01, "Command payload: 0x80, TC, TID, SID, IID, RQID (2), CID, then 0 to 248 data bytes").
ghost use Rattle.std.specs.Prelude.{◌≡◌, [], ◌+◌, ◌≤◌, ltb, length};
ghost use Rattle.message.specs.Writing.{placed};
ghost use Rattle.command.specs.Payload.{head_length, max_data, payload};
ghost use Rattle.command.specs.Promises.{fields_of, Wrote};

use crate::{COMMAND_MARK, Fields, HEAD_LENGTH, Head, MAX_DATA};

// Whether that is too much data for a command, in bytes: what the crate above asks before it lends a part.
// Ruled out: 249 bytes let through, and 248 refused.
pub fn is_too_long(len: usize) -> bool
    ensures { result ≡ ltb max_data len }
{
    MAX_DATA < len
}

// Puts a command at the front of the part and answers its length; the rest of the part stays. For the crate above, which lends a part
// with room for it: it has refused data that is too long.
// Ruled out: TID and SID in each other's place, RQID with its high byte first, data one byte late or over CID, and a byte behind the
// command touched.
#[tactic(auto, using(crate::proofs::Payloads::head_then_data))]
pub fn write(part: &mut [u8], head: Head, data: &[u8]) -> usize
    requires { head_length + length «data».now ≤ length part.old }
    ensures { Wrote result (fields_of head.fields) head.id.0 «data».now part.old part.new }
{
    write_head(part, head);
    let len = byte_slices::copy(data, &mut part[HEAD_LENGTH..]);
    HEAD_LENGTH + len
}

// The bytes before the data, at the front of the part: a command without any.
#[tactic(auto, using(message::proofs::Buffer::copied_front), unfolding(crate::specs::Payload::payload, message::specs::Bytes::le16))]
fn write_head(part: &mut [u8], head: Head)
    requires { head_length ≤ length part.old }
    ensures { part.new ≡ placed 0 (payload (fields_of head.fields) head.id.0 []) part.old }
{
    let Fields {
        tc,
        tid,
        sid,
        iid,
        cid,
    } = head.fields;
    let [low, high] = head.id.0.to_le_bytes();
    let bytes = [COMMAND_MARK, tc, tid, sid, iid, low, high, cid];
    byte_slices::copy(&bytes, part);
}
