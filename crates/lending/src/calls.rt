// The calls of a host and what they are made of, with a store as a slice.
ghost use Rattle.std.specs.Prelude.{◌≡◌, List, ℕ, ◌+◌, ◌≤◌, ◌<◌, length, take};
ghost use Rattle.message.specs.Bytes.{total, max_len};
ghost use Rattle.message.specs.Writing.{placed};
ghost use Rattle.line.specs.Receiving as line;
ghost use Rattle.line.specs.Receiving.{held_max};
ghost use Rattle.link.specs.Promises.{frame_of};
ghost use Rattle.command.specs.Promises.{fields_of};
ghost use Rattle.ledger.specs.Receiving.{received_as};
ghost use Rattle.ledger.specs.Polling.{polled_as};
ghost use Rattle.endpoint.specs.Endpoint.{store_length, ledger_of, live_of};
ghost use Rattle.live_changes.specs.Changing.{Names};
ghost use Rattle.host_answers.specs.Promises as promise;
ghost use Rattle.host_answers.specs.Promises.{receive_result, poll_result};
ghost use Rattle.host_answers.specs.Code.{Sound, Does, DecidesIn};
ghost use Rattle.decisions_verdict.specs.Verdicts.{bytes_for, act_of};
ghost use Rattle.decisions_poll.specs.Steps.{sent_from};

use command::Fields;
use decisions_verdict::Verdict;
use endpoint::Endpoint;
use host_acting::{act, decide_in};
use host_answers::{Polled, Received, Submitted};
use host_polling::poll_in;
use host_receiving::receive_in;
use host_sending::send;
use host_submitting::submit_in;
use line::Decision;
use link::frame::Frame;
use message::Seq;

fn decide_at_front(store: &mut [u8], held: usize, bytes: &[u8]) -> Decision
    requires { (length store.old ≡ store_length) × (held ≤ held_max) }
    ensures { DecidesIn result held bytes.now store.old store.new }
{
    decide_in(store, held, bytes)
}

fn act_in(
    e: Endpoint,
    store: &mut [u8],
    decision: Decision,
    verdict: Verdict,
    replied: usize,
    clock: u64,
) -> Received
    requires { Sound e clock × (length store.old ≡ store_length) × (decision.start + decision.count ≤ held_max)
        × Names verdict.change e.live.count }
    ensures { (before new words payload reply buffer : List ℕ) → DecidesIn decision e.held new before store.old
        → length words ≡ replied
        → Does (received_as (ledger_of e before) (line.receive (take e.held before) new)
        (act_of verdict words payload (live_of e.live before)) reply buffer clock)
        (receive_result result store.new (placed 0 words reply) (placed 0 (bytes_for verdict.word payload) buffer)) }
{
    act(e, store, decision, verdict, replied, clock)
}

fn send_in(
    e: Endpoint,
    store: &mut [u8],
    output: &mut [u8],
    row: usize,
    frame: Frame,
    next: Seq,
    clock: u64,
) -> Polled
    requires { Sound e clock × (length store.old ≡ store_length) × (row < e.live.count)
        × (total max_len ≤ length output.old) }
    ensures { Does (polled_as (ledger_of e store.old)
        (sent_from (ledger_of e store.old) clock (frame_of frame) next.0 row) output.old clock)
        (poll_result result store.new output.new) }
{
    send(e, store, output, row, frame, next, clock)
}

fn submit(
    e: Endpoint,
    store: &mut [u8],
    fields: Fields,
    data: &[u8],
    wanted: bool,
    clock: u64,
) -> Submitted
    requires { length store.old ≡ store_length }
    ensures { promise.Submitted result e fields «data».now wanted clock store.old store.new }
{
    submit_in(e, store, fields, data, wanted, clock)
}

fn receive(
    e: Endpoint,
    store: &mut [u8],
    bytes: &[u8],
    reply: &mut [u8],
    buffer: &mut [u8],
    clock: u64,
) -> Received
    requires { length store.old ≡ store_length }
    ensures { promise.Received result e bytes.now reply.old buffer.old clock store.old
        store.new reply.new buffer.new }
{
    receive_in(e, store, bytes, reply, buffer, clock)
}

fn poll(e: Endpoint, store: &mut [u8], output: &mut [u8], clock: u64) -> Polled
    requires { length store.old ≡ store_length }
    ensures { promise.Polled result e output.old clock store.old store.new output.new }
{
    poll_in(e, store, output, clock)
}
