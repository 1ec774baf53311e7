// Receive (document 01, **Receive**): for `host`, which adds what the call says of every list of calls.
#![tactic(auto)]

ghost use Rattle.std.specs.Prelude.{◌≡◌, ◌≤◌, length};
ghost use Rattle.message.specs.Bytes.{total};
ghost use Rattle.command.specs.Payload.{max_data};
ghost use Rattle.ledger.specs.Receiving as ledger;
ghost use Rattle.endpoint.specs.Endpoint.{store_length, ledger_of};
ghost use Rattle.host_answers.specs.Promises as promise;
ghost use Rattle.host_answers.specs.Promises.{receive_result};
ghost use Rattle.host_answers.specs.Code.{Does};

use decisions_verdict::only;
use endpoint::{Endpoint, STORE_LENGTH};
use host_acting::{act, decide_in, deliver};
use host_answers::{Accepted, Received};
use host_deliveries::put_reply;
use line::HELD_MAX;
use message::Item;
use refusals::check_receive;

// What `host::receive` does and promises.
// Stays: the clause `length store.old ≡ store_length`, as for `host_acting::act`.
#[tactic(auto, using(host_answers::proofs::Calls::sound_of, host_answers::proofs::Calls::meets, crate::proofs::Rooms::roomy))]
pub fn receive_in(
    e: Endpoint,
    store: &mut [u8],
    bytes: &[u8],
    reply: &mut [u8],
    buffer: &mut [u8],
    clock: u64,
) -> Received
    requires { length store.old ≡ store_length }
    ensures { promise.Received result e bytes.now reply.old buffer.old clock store.old
        store.new reply.new buffer.new }
{
    match check_receive(e, reply.len(), buffer.len(), clock) {
        Err(refusal) => Received::refused(e, refusal),
        Ok(()) => {
            let store = store.as_mut_array().unwrap();
            accept(Accepted { e, clock }, store, bytes, reply, buffer)
        }
    }
}

// A receive that the table does not refuse. A call of its own, as in `host_polling`: a refused receive then copies the endpoint once less.
// Stays: the clause `total 0 ≤ length reply.old`, as for `frames::put_ack`.
#[tactic(auto, using(refinement::proofs::Sound::held_of))]
#[inline(never)]
fn accept(
    accepted: Accepted,
    store: &mut [u8; STORE_LENGTH],
    bytes: &[u8],
    reply: &mut [u8],
    buffer: &mut [u8],
) -> Received
    requires { (total 0 ≤ length reply.old) × (max_data ≤ length buffer.old) }
    ensures { Does (ledger.receive (ledger_of accepted.e store.old) bytes.now reply.old
        buffer.old accepted.clock) (receive_result result store.new reply.new buffer.new) }
{
    let e = accepted.e;
    let decision = decide_in(store, e.held, bytes);
    let Some(item) = decision.answer else {
        return act(e, store, decision, only(None, e.seen), 0, accepted.clock);
    };
    let replied = put_reply(reply, item);
    let Item::Message { kind, seq, len: _ } = item else {
        let plain = only(None, e.seen);
        return act(e, store, decision, plain, replied, accepted.clock);
    };
    let verdict = deliver(
        e,
        &store[..HELD_MAX],
        bytes,
        decision,
        kind,
        seq,
        buffer,
        accepted.clock,
    );
    act(e, store, decision, verdict, replied, accepted.clock)
}
