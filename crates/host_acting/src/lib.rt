// What a receive that the table does not refuse does (document 01, **Receive**): the line's decision on the front of the store, a message
// judged and its data delivered, and the change carried out. For `host_receiving`, which has refused a malformed endpoint.
#![tactic(auto)]

ghost use Rattle.std.specs.Prelude.{◌≡◌, List, ℕ, ◌+◌, ◌≤◌, length, take, drop};
ghost use Rattle.message.specs.Bytes.{max_len};
ghost use Rattle.message.specs.Writing.{placed};
ghost use Rattle.line.specs.Receiving as line;
ghost use Rattle.line.specs.Receiving.{held_max};
ghost use Rattle.line.specs.Promises.{part_of};
ghost use Rattle.command.specs.Payload.{max_data};
ghost use Rattle.ledger.specs.Receiving.{received_as};
ghost use Rattle.endpoint.specs.Endpoint.{store_length, ledger_of, live_of};
ghost use Rattle.live_changes.specs.Changing.{Names};
ghost use Rattle.host_answers.specs.Promises.{receive_result};
ghost use Rattle.host_answers.specs.Code.{Sound, Does, DecidesIn};
ghost use Rattle.decisions_verdict.specs.Verdicts.{bytes_for, act_of, Judges};

use decisions::judge;
use decisions_verdict::Verdict;
use endpoint::{Endpoint, STORE_LENGTH};
use host_answers::{Accepted, Receipt, Received};
use host_deliveries::{ending_of, hand_over};
use line::payload::payload;
use line::{Decision, HELD_MAX};
use line_deciding::decide;
use line_receiving::settle;
use message::Seq;

// The line's decision on the held bytes, at the front of the store, and the new ones. The rooms stay.
// Ruled out: a decision on the bytes behind the held ones, and one that reaches into a room.
// Stays: the clause `length store.old ≡ store_length` may not ask more: any slice of that length may be lent, and no array alone.
// Stays: the clause `held ≤ held_max`, as for `line_deciding::decide`.
pub fn decide_in(store: &mut [u8], held: usize, bytes: &[u8]) -> Decision
    requires { (length store.old ≡ store_length) × (held ≤ held_max) }
    ensures { DecidesIn result held bytes.now store.old store.new }
{
    decide(store.first_chunk_mut::<HELD_MAX>().unwrap(), held, bytes)
}

// What a message does, with the data of an event or a response put into the data buffer.
// Ruled out: a message judged with another SEQ, and data of an event that are left out.
// Stays: `e`, `kind`, `seq` and `clock` one by one, as `decisions::judge` has them; `Accepted` would ask for an endpoint that is sound.
pub fn deliver<'a>(
    e: Endpoint,
    array: &'a [u8],
    bytes: &'a [u8],
    decision: Decision,
    kind: u8,
    seq: Seq,
    buffer: &mut [u8],
    clock: u64,
) -> Verdict
    requires { (max_data ≤ length buffer.old)
        × (length (part_of decision.answer decision.payload array.now bytes.now) ≤ max_len) }
    ensures { Judges result e kind seq.0 (part_of decision.answer decision.payload array.now bytes.now)
        clock
        × (buffer.new ≡ placed 0 (bytes_for result.word (part_of decision.answer decision.payload array.now
        bytes.now)) buffer.old) }
{
    let body = payload(array, bytes, decision);
    let verdict = judge(e, kind, seq, body, clock);
    hand_over(buffer, verdict.word, body);
    verdict
}

// Carries out what an item does, when the store is as the line's decision left it: the bytes to be held go to the front, and the
// live requests change.
// Ruled out: *more* answered for an item, and held bytes that are lost.
// Stays: the clauses of `Sound` and of the store's length may not ask more: any endpoint and reading of which the first holds may be handed
// in, and any slice of that length lent. Inside, an `Accepted` and an array hold them.
// Stays: the clause of `Names`, as for `live_changes::Live::carry_out`.
pub fn act(
    e: Endpoint,
    store: &mut [u8],
    decision: Decision,
    verdict: Verdict,
    replied: usize,
    clock: u64,
) -> Received
    requires { Sound e clock × (length store.old ≡ store_length) × (decision.start + decision.count ≤ held_max)
        × Names verdict.change e.live.count }
    ensures { (before new words payload reply buffer : List ℕ) → DecidesIn decision e.held new before store.old
        → length words ≡ replied
        → Does (received_as (ledger_of e before) (line.receive (take e.held before) new)
        (act_of verdict words payload (live_of e.live before)) reply buffer clock)
        (receive_result result store.new (placed 0 words reply) (placed 0 (bytes_for verdict.word payload) buffer)) }
{
    let store = store.as_mut_array().unwrap();
    let held = settle_in(store, decision);
    let before = Accepted { e, clock }.live();
    let ending = ending_of(before.requests, verdict.change);
    let live = before.carry_out(store, verdict.change);
    let receipt = Receipt {
        item: decision.answer,
        word: verdict.word,
        taken: decision.taken,
        replied,
        ending,
    };
    Received {
        answer: Ok(receipt),
        endpoint: Endpoint {
            live: live.requests,
            clock,
            seen: verdict.seen,
            held,
            ..e
        },
    }
}

// Puts the bytes to be held at the front of the store, and answers how many they are. The rooms stay.
fn settle_in(store: &mut [u8; STORE_LENGTH], decision: Decision) -> usize
    requires { decision.start + decision.count ≤ held_max }
    ensures { (result ≡ decision.count)
        × (take result store.new ≡ take decision.count (drop decision.start (take held_max store.old)))
        × (drop held_max store.new ≡ drop held_max store.old) }
{
    settle(&mut store[..HELD_MAX], decision)
}
