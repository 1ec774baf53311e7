// What a receive delivers to its caller: the reply to an item, the data of an event or a response, and the ending (document 01,
// **Receive**).
#![tactic(auto)]

ghost use Rattle.std.specs.Prelude.{◌≡◌, List, ℕ, ◌≤◌, length};
ghost use Rattle.message.specs.Bytes.{total};
ghost use Rattle.message.specs.Promises.{item_of};
ghost use Rattle.message.specs.Writing.{placed};
ghost use Rattle.command.specs.Payload.{data_in};
ghost use Rattle.ledger.specs.Parts.{live_max};
ghost use Rattle.endpoint.specs.Endpoint.{live_of};
ghost use Rattle.live_changes.specs.Changing.{ending_by, Names};
ghost use Rattle.frames.specs.Promises.{Put};
ghost use Rattle.decisions_verdict.specs.Verdicts.{bytes_for, reply_to};
ghost use Rattle.host_answers.specs.Answers.{ended_of};
ghost use Rattle.host_answers.specs.Code.{reply_for};

use endpoint::Requests;
use frames::{put_ack, put_nak};
use ledger::{Ending, Word};
use live_changes::Change;
use message::header::DATA_SEQ;
use message::{Item, Seq};

// The reply to an item: "Damaged header or payload: reply NAK .. Forbidden: no reply.", "DATA_SEQ: reply ACK with its SEQ."
// For `host_receiving`, which lends room for it: the table has refused a smaller reply buffer.
// Ruled out: a NAK to a forbidden item, and a DATA_SEQ that is not acknowledged.
// Stays: the clause `total 0 ≤ length reply.old`, as for `frames::put_ack`.
#[tactic(auto, using(host_answers::proofs::Held::placed_none))]
pub fn put_reply(reply: &mut [u8], item: Item) -> usize
    requires { total 0 ≤ length reply.old }
    ensures { Put result (reply_for (item_of item)) reply.old reply.new }
{
    match item {
        Item::DamagedHeader | Item::DamagedPayload => put_nak(reply),
        Item::Forbidden => 0,
        Item::Message { kind, seq, len: _ } => acknowledge(reply, kind, seq),
    }
}

// An ACK to DATA_SEQ, nothing to another message.
#[tactic(auto, using(host_answers::proofs::Held::placed_none))]
fn acknowledge(reply: &mut [u8], kind: u8, seq: Seq) -> usize
    requires { total 0 ≤ length reply.old }
    ensures { Put result (reply_to kind seq.0) reply.old reply.new }
{
    if kind == DATA_SEQ {
        return put_ack(reply, seq);
    }
    0
}

// "Events and responses put their data at the front of the lent data buffer; no other item touches it."
// For `host_acting`, which lends room for them: the table has refused a smaller data buffer.
// Ruled out: data of an unmatched message in the buffer, and data of an event or a response that stay out of it.
#[tactic(auto, using(host_answers::proofs::Held::placed_none))]
pub fn hand_over(buffer: &mut [u8], word: Option<Word>, body: &[u8])
    requires { length (data_in body.now) ≤ length buffer.old }
    ensures { buffer.new ≡ placed 0 (bytes_for word body.now) buffer.old }
{
    match word {
        Some(Word::Event(_) | Word::Response(_)) => put_data(buffer, body),
        Some(Word::Stray | Word::Repeat | Word::NotCommand | Word::Unmatched(_)) | None => {}
    }
}

// The data of a payload at the front of the buffer.
fn put_data(buffer: &mut [u8], body: &[u8])
    requires { length (data_in body.now) ≤ length buffer.old }
    ensures { buffer.new ≡ placed 0 (data_in body.now) buffer.old }
{
    byte_slices::copy(command::reader::data(body), buffer);
}

// The ending that a change makes. For `host_acting`, whose change names a row in use: a search has found it.
// Ruled out: a request that leaves with no ending reported, and an ending with the ID of another.
// Stays: the clause of `Names`, as for `live_changes::Live::carry_out`.
pub fn ending_of(live: Requests, change: Option<Change>) -> Option<Ending>
    requires { (live.count ≤ live_max) × Names change live.count }
    ensures { (store : List ℕ) → ended_of result ≡ ending_by change (live_of live store) }
{
    let Some(Change::End(row, cause)) = change else {
        return None;
    };
    let id = live.rows[row].id;
    Some(Ending { id, cause })
}
