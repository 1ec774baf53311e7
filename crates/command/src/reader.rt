// The command reader (document 01, **Receive**: "LEN under 8 or first byte not 0x80: *not a command*").
ghost use Rattle.std.specs.Prelude.{◌≡◌};
ghost use Rattle.command.specs.Payload.{data_in};
ghost use Rattle.command.specs.Promises.{command_in, command_of};

use crate::{COMMAND_MARK, Fields, HEAD_LENGTH, Head, RequestId};

// The command of a payload, without its data, where it is one.
// Ruled out: a command of seven bytes, and CID taken from the request ID.
#[tactic(auto, unfolding(crate::specs::Promises::command_in, crate::specs::Payload::is_command))]
pub fn read(payload: &[u8]) -> Option<Head>
    ensures { command_of result ≡ command_in payload.now }
{
    let &[COMMAND_MARK, tc, tid, sid, iid, low, high, cid, ..] = payload else {
        return None;
    };
    Some(Head {
        fields: Fields {
            tc,
            tid,
            sid,
            iid,
            cid,
        },
        id: RequestId(u16::from_le_bytes([low, high])),
    })
}

// The data of a payload, as a part of it and no copy: what stands behind the first eight bytes, nothing where there are fewer.
// Ruled out: data that begins with CID, and the whole of a payload that is too short.
pub fn data(payload: &[u8]) -> &[u8]
    ensures { result.now ≡ data_in payload.now }
{
    payload.get(HEAD_LENGTH..).unwrap_or_default()
}
