// A client of the host endpoint, over its four calls and nothing else: it opens an endpoint and asks twice with the same fields and data.
// The first request is acknowledged, and answered in two pieces; the second is never heard of, and is given up after three transmissions.
// Its contract says each answer, ending and buffer exactly, and that its calls are a list of which demand 3 speaks. Both are shown from
// the contracts of the four calls alone: where one of them is weakened, this crate or that of its parts, `client_parts`, is not proved.
#![tactic(auto)]

ghost use Rattle.command.specs.Promises.{fields_of};
ghost use Rattle.client.specs.Exchange.{Exchanges};

use client_parts::asking::ask;
use client_parts::giving_up::give_up;
use client_parts::hearing::hear;
use client_parts::{Asked, GivenUp, Heard, Readings};
use command::Fields;
use endpoint::STORE_LENGTH;
use host::open;
use host_answers::OpenAnswer;

// All answers of an exchange, and the endpoint afterwards.
#[derive(Drop)]
pub struct Report {
    pub opened: OpenAnswer,
    pub first: Asked,
    pub heard: Heard,
    pub second: Asked,
    pub over: GivenUp,
}

// Asks twice: the first request gets the ACK and the response, in two pieces, that are handed in; of the second nothing is heard.
// Ruled out: an answer, an ending or a byte of a buffer that is another, and a list of calls of which demand 3 does not hold.
pub fn exchange(
    reserved: u64,
    store: &mut [u8; STORE_LENGTH],
    fields: Fields,
    data: &[u8],
    ack: &[u8],
    first: &[u8],
    second: &[u8],
    at: Readings,
    output: &mut [u8],
    reply: &mut [u8],
    buffer: &mut [u8],
    frames: &mut [u8],
) -> Report
    ensures { Exchanges result reserved (fields_of fields) «data».now ack.now first.now
        second.now at output.old reply.old buffer.old frames.old
        store.new output.new reply.new buffer.new frames.new }
{
    let opened = open(reserved);
    let asked = ask(opened.endpoint, store, fields, data, output, at.asked);
    let heard = hear(
        asked.endpoint,
        store,
        ack,
        first,
        second,
        reply,
        buffer,
        at.heard,
    );
    let asked_again = ask(heard.endpoint, store, fields, data, frames, at.heard);
    let over = give_up(asked_again.endpoint, store, frames, at);
    Report {
        opened: opened.answer,
        first: asked,
        heard,
        second: asked_again,
        over,
    }
}
