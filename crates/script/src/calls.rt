// A line of a script as a call. The bytes that a call names go to the front of a lent buffer; the call says how many they are, and is
// given them as a slice by `with_bytes`.
ghost use Rattle.std.specs.Prelude.{◌≡◌, length, take, IfOk, IfSome};
ghost use Rattle.script.specs.Limits.{Within};
ghost use Rattle.script.specs.Lending.{mapped};

use crate::fields::{Reader, first};
use command::Fields;
use script_bytes::faults::Fault;

// The most bytes of a lent buffer, and of the bytes that a call names.
pub const LENT_MAX: usize = 4096;

// A call with its arguments. `B` is what it has of its bytes: how many they are, or the slice of them.
#[derive(Clone, Copy)]
pub enum Call<B> {
    Open {
        reserved: u64,
    },
    Submit {
        fields: Fields,
        wanted: bool,
        clock: u64,
        bytes: B,
    },
    Receive {
        clock: u64,
        reply: usize,
        buffer: usize,
        bytes: B,
    },
    Poll {
        clock: u64,
        output: usize,
    },
}

impl Call<usize> {
    // The call with its bytes, from the lent ones that they are at the front of.
    // Ruled out: a lent byte behind those that the call names, and another argument than the call's.
    pub fn with_bytes(self, bytes: &[u8]) -> Call<&[u8]>
        requires { Within (λ count. count) (length bytes.now) self }
        ensures within { Within (λ named. length named.now) (length bytes.now) result }
        ensures front { mapped (λ named. named.now) result ≡ mapped (λ count. take count bytes.now) self }
    {
        match self {
            Call::Open { reserved } => Call::Open { reserved },
            Call::Submit {
                fields,
                wanted,
                clock,
                bytes: data_len,
            } => Call::Submit {
                fields,
                wanted,
                clock,
                bytes: &bytes[..data_len],
            },
            Call::Receive {
                clock,
                reply,
                buffer,
                bytes: received_len,
            } => Call::Receive {
                clock,
                reply,
                buffer,
                bytes: &bytes[..received_len],
            },
            Call::Poll { clock, output } => Call::Poll { clock, output },
        }
    }
}

// The call on a line, if there is one, or what is wrong with the line: the first fault from the left.
// Ruled out: a lent buffer of more than 4,096 bytes, and more bytes of a call than the lent ones.
pub fn read_call(line: &[u8], bytes: &mut [u8]) -> Result<Option<Call<usize>>, Fault>
    ensures { IfOk result (λ found. IfSome found (λ call. Within (λ count. count) (length bytes.old) call)) }
{
    if let [] | [b'#', ..] = line {
        return Ok(None);
    }
    let (word, mut reader) = first(line);
    let call = read_arguments(word, &mut reader, bytes)?;
    reader.end()?;
    Ok(Some(call))
}

// The call of this name, with its arguments from the line.
fn read_arguments(word: &[u8], line: &mut Reader, bytes: &mut [u8]) -> Result<Call<usize>, Fault>
    ensures { IfOk result (λ call. Within (λ count. count) (length bytes.old) call) }
{
    let call = match word {
        b"open" => Call::Open {
            reserved: line.number(u64::MAX)?,
        },
        b"submit" => Call::Submit {
            fields: read_fields(line)?,
            wanted: line.wanted()?,
            clock: line.number(u64::MAX)?,
            bytes: line.bytes(bytes)?,
        },
        b"receive" => Call::Receive {
            clock: line.number(u64::MAX)?,
            reply: line.lent()?,
            buffer: line.lent()?,
            bytes: line.bytes(bytes)?,
        },
        b"poll" => Call::Poll {
            clock: line.number(u64::MAX)?,
            output: line.lent()?,
        },
        _ => return Err(Fault::UnknownCall),
    };
    Ok(call)
}

// `TC TID SID IID CID`
fn read_fields(line: &mut Reader) -> Result<Fields, Fault> {
    Ok(Fields {
        tc: line.byte()?,
        tid: line.byte()?,
        sid: line.byte()?,
        iid: line.byte()?,
        cid: line.byte()?,
    })
}
