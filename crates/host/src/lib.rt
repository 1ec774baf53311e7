// The host endpoint (document 01, "The ledger"): open, submit, receive and poll, each proved to answer as the ledger does. None has a
// `requires`: any endpoint, store, bytes, buffers and clock may be handed in. Each contract has two parts: what the call promises by
// itself, and that it extends every list of calls from open on which ends in the endpoint and the store handed in: the list with this
// call and its own outcome meets demand 3 (`Demand3`, `host_claims/specs/Claims.antt`).
// Stays: an endpoint, its store and what a call is lent are parameters one by one, since each call brings its own, and any store may be lent
// beside any endpoint.
#![tactic(auto)]

mod opening; // a fresh endpoint

ghost use Rattle.command.specs.Promises.{fields_of};
ghost use Rattle.ledger.specs.Calls as call;
ghost use Rattle.host_answers.specs.Promises.{submit_result, receive_result, poll_result};
ghost use Rattle.host_answers.specs.Promises as promise;
ghost use Rattle.host_claims.specs.Claims.{Begins, Extends};

use command::Fields;
use endpoint::{Endpoint, RESERVED_MAX, STORE_LENGTH};
use host_answers::{Opened, Polled, Received, Submitted};
use host_polling::poll_in;
use host_receiving::receive_in;
use host_submitting::submit_in;
use ledger::Refusal;
use opening::fresh;

// Opens an endpoint that keeps the request IDs 1 to R for events. R over 255 is refusal 3, with the fresh endpoint for R = 0. The
// store that is lent to the later calls may hold any bytes.
// Ruled out: a first ID of R, and a refusal that hands back the endpoint for the R given.
#[tactic(auto, using(crate::proofs::Fresh::promised_refused, crate::proofs::Fresh::promised_accepted))]
pub fn open(reserved: u64) -> Opened
    ensures promise { promise.Opened result reserved }
    ensures list { Begins result reserved }
{
    if RESERVED_MAX < reserved {
        return Opened::refused(fresh(0), Refusal::ReservedOver);
    }
    Opened {
        answer: Ok(()),
        endpoint: fresh(reserved as u8),
    }
}

// Asks for a command to be sent, with these fields and data, a response wanted or not, and answers its request ID.
// Ruled out: an ID that is live, and a refused call that sets the clock.
pub fn submit(
    e: Endpoint,
    store: &mut [u8; STORE_LENGTH],
    fields: Fields,
    data: &[u8],
    wanted: bool,
    clock: u64,
) -> Submitted
    ensures promise { promise.Submitted result e fields «data».now wanted clock store.old store.new }
    ensures list { Extends e store.old (call.submit (fields_of fields) «data».now wanted clock)
        (submit_result result store.new) }
{
    submit_in(e, store, fields, data, wanted, clock)
}

// Takes bytes from the line until they decide one item, and acts on it. A reply stands at the front of the reply buffer afterwards,
// the data of an event or a response at the front of the data buffer; all other bytes of both stay.
// Ruled out: two items in one call, and a repeat that is not acknowledged.
pub fn receive(
    e: Endpoint,
    store: &mut [u8; STORE_LENGTH],
    bytes: &[u8],
    reply: &mut [u8],
    buffer: &mut [u8],
    clock: u64,
) -> Received
    ensures promise { promise.Received result e bytes.now reply.old buffer.old clock store.old
        store.new reply.new buffer.new }
    ensures list { Extends e store.old (call.receive bytes.now reply.old buffer.old clock)
        (receive_result result store.new reply.new buffer.new) }
{
    receive_in(e, store, bytes, reply, buffer, clock)
}

// Does what is due: at most one request ends, or one frame is put into the output. Where nothing is due it answers *quiet*.
// Ruled out: a fourth transmission, and a queued request sent while another's frame is in flight.
pub fn poll(e: Endpoint, store: &mut [u8; STORE_LENGTH], output: &mut [u8], clock: u64) -> Polled
    ensures promise { promise.Polled result e output.old clock store.old store.new output.new }
    ensures list { Extends e store.old (call.poll output.old clock)
        (poll_result result store.new output.new) }
{
    poll_in(e, store, output, clock)
}
