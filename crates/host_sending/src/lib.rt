// A frame that a poll sends (document 01, **Poll** 2 and 3): it is put into the output, and its request is in flight. For `host_polling`,
// which has decided what is due and has refused a malformed endpoint and a short output.
#![tactic(auto)]

ghost use Rattle.std.specs.Prelude.{◌≡◌, ◌≤◌, ◌<◌, length};
ghost use Rattle.message.specs.Bytes.{total, max_len};
ghost use Rattle.link.specs.Promises.{frame_of};
ghost use Rattle.ledger.specs.Polling.{frame_bytes, polled_as};
ghost use Rattle.endpoint.specs.Endpoint.{store_length, ledger_of, live_of};
ghost use Rattle.endpoint.specs.Places.{at};
ghost use Rattle.frames.specs.Promises.{Put};
ghost use Rattle.host_answers.specs.Promises.{poll_result};
ghost use Rattle.host_answers.specs.Code.{Sound, Does};
ghost use Rattle.decisions_poll.specs.Steps.{sent_from};

use command::Head;
use endpoint::{Endpoint, STORE_LENGTH, State};
use frames::put_command;
use host_answers::{Accepted, PollOutcome, Polled};
use link::frame::Frame;
use live_changes::rooms::place_of;
use live_changes::{Change, Live};
use message::Seq;

// The frame of the request in a row goes out, and is in flight.
// Ruled out: an ending answered for a frame that was sent, and a count of transmissions that is not the frame's.
// Stays: the clauses of `Sound` and of the store's length, as for `host_acting::act`.
// Stays: the clause `total max_len ≤ length output.old`, as for `frames::put_command`.
// Stays: the clause `row < e.live.count`, as for `live_changes::Live::carry_out`.
pub fn send(
    e: Endpoint,
    store: &mut [u8],
    output: &mut [u8],
    row: usize,
    frame: Frame,
    next: Seq,
    clock: u64,
) -> Polled
    requires { Sound e clock × (length store.old ≡ store_length) × (row < e.live.count)
        × (total max_len ≤ length output.old) }
    ensures { Does (polled_as (ledger_of e store.old)
        (sent_from (ledger_of e store.old) clock (frame_of frame) next.0 row) output.old clock)
        (poll_result result store.new output.new) }
{
    let store = store.as_mut_array().unwrap();
    let before = Accepted { e, clock }.live();
    let sent = put_frame(before, store, output, row, frame);
    let live = before.carry_out(store, Some(Change::Turn(row, State::InFlight(frame))));
    Polled {
        answer: Ok(PollOutcome::Sent(sent)),
        endpoint: Endpoint {
            live: live.requests,
            clock,
            seq: next,
            ..e
        },
    }
}

// Puts the frame of the request in a row into the output: its fields, ID and data, with the frame's SEQ.
fn put_frame(
    live: Live,
    store: &[u8; STORE_LENGTH],
    output: &mut [u8],
    row: usize,
    frame: Frame,
) -> usize
    requires { (row < live.requests.count) × (total max_len ≤ length output.old) }
    ensures { Put result (frame_bytes (at row (live_of live.requests store.now)) frame.seq.0) output.old
        output.new }
{
    let q = live.requests.rows[row];
    let head = Head {
        fields: q.fields,
        id: q.id,
    };
    let at = place_of(row);
    put_command(output, frame.seq, head, &store[at..at + q.len])
}
