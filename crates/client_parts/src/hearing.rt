// What arrives for the first request: its ACK, and the response in two pieces.
ghost use Rattle.client_parts.specs.Parts.{Hears};

use crate::Heard;
use endpoint::{Endpoint, STORE_LENGTH};
use host::receive;

// Hands in the ACK, then the two pieces, at one reading. Public for `client`.
// Ruled out: a response that is told before its last byte is there, and one that is not acknowledged.
pub fn hear(
    e: Endpoint,
    store: &mut [u8; STORE_LENGTH],
    ack: &[u8],
    first: &[u8],
    second: &[u8],
    reply: &mut [u8],
    buffer: &mut [u8],
    clock: u64,
) -> Heard
    ensures { Hears result e store.old store.new ack.now first.now second.now
        reply.old reply.new buffer.old buffer.new clock }
{
    let to_ack = receive(e, store, ack, reply, buffer, clock);
    let to_first = receive(to_ack.endpoint, store, first, reply, buffer, clock);
    let to_second = receive(to_first.endpoint, store, second, reply, buffer, clock);
    Heard {
        acknowledged: to_ack.answer,
        waits: to_first.answer,
        answered: to_second.answer,
        endpoint: to_second.endpoint,
    }
}
