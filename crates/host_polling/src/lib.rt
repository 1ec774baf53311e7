// Poll (document 01, **Poll**): for `host`, which adds what the call says of every list of calls.
#![tactic(auto)]

ghost use Rattle.std.specs.Prelude.{◌≡◌, Some, List, ℕ, ◌≤◌, ◌<◌, length};
ghost use Rattle.message.specs.Bytes.{total, max_len};
ghost use Rattle.ledger.specs.Polling as ledger;
ghost use Rattle.ledger.specs.Polling.{step4, polled_as};
ghost use Rattle.endpoint.specs.Endpoint.{store_length, ledger_of};
ghost use Rattle.host_answers.specs.Promises as promise;
ghost use Rattle.host_answers.specs.Promises.{poll_result};
ghost use Rattle.host_answers.specs.Code.{Sound, Does};
ghost use Rattle.decisions_poll.specs.Steps.{step_of};
ghost use Rattle.decisions_poll.specs.declared.Step.TheVariants.{End};

use decisions_poll::{Step, next_step};
use endpoint::{Endpoint, STORE_LENGTH};
use host_answers::{Accepted, PollOutcome, Polled};
use host_sending::send;
use ledger::{Cause, Ending};
use link::frame::Frame;
use link::sequence;
use live_deadline::time_left;
use refusals::check_poll;

// What `host::poll` does and promises.
// Stays: the clause `length store.old ≡ store_length`, as for `host_sending::send`.
#[tactic(auto, using(host_answers::proofs::Calls::sound_of, host_answers::proofs::Calls::meets, host_sending::proofs::Stepping::long_enough))]
pub fn poll_in(e: Endpoint, store: &mut [u8], output: &mut [u8], clock: u64) -> Polled
    requires { length store.old ≡ store_length }
    ensures { promise.Polled result e output.old clock store.old store.new output.new }
{
    match check_poll(e, output.len(), clock) {
        Err(refusal) => Polled::refused(e, refusal),
        Ok(()) => {
            let store = store.as_mut_array().unwrap();
            accept(e, store, output, clock)
        }
    }
}

// A poll that the table does not refuse. A call of its own: inlined, it has the endpoint copied twice more on its way out, and a poll that
// is quiet takes a quarter more time.
// Stays: the clause of `Sound`, as for `host_sending::send`: of an `Accepted` the endpoint would be copied once more for that call.
// Stays: the clause `total max_len ≤ length output.old`, as for `frames::put_command`.
#[inline(never)]
fn accept(e: Endpoint, store: &mut [u8; STORE_LENGTH], output: &mut [u8], clock: u64) -> Polled
    requires { Sound e clock × (total max_len ≤ length output.old) }
    ensures { Does (ledger.poll (ledger_of e store.old) output.old clock)
        (poll_result result store.new output.new) }
{
    let seq = e.seq;
    match next_step(e.live, clock) {
        Some(Step::End(row, cause)) => end(Accepted { e, clock }, store, row, cause),
        Some(Step::Again(row, frame)) => send(e, store, output, row, frame, seq, clock),
        Some(Step::First(row)) => {
            let frame = Frame::first(seq, clock);
            send(e, store, output, row, frame, sequence::next(seq), clock)
        }
        None => quiet(Accepted { e, clock }),
    }
}

// The request in a row ends.
// Stays: the clause `row < accepted.e.live.count`, as for `live_changes::Live::without`.
fn end(accepted: Accepted, store: &mut [u8; STORE_LENGTH], row: usize, cause: Cause) -> Polled
    requires { row < accepted.e.live.count }
    ensures { (output : List ℕ) → Does (polled_as (ledger_of accepted.e store.old)
        (step_of (Some (End row cause)) (ledger_of accepted.e store.old) accepted.clock) output accepted.clock)
        (poll_result result store.new output) }
{
    let before = accepted.live();
    let id = before.requests.rows[row].id;
    let live = before.without(store, row);
    Polled {
        answer: Ok(PollOutcome::Ended(Ending { id, cause })),
        endpoint: Endpoint {
            live: live.requests,
            clock: accepted.clock,
            ..accepted.e
        },
    }
}

// Nothing is due.
#[tactic(auto, using(refinement::proofs::Times::none_late))]
fn quiet(accepted: Accepted) -> Polled
    ensures { (store output : List ℕ) → Does (polled_as (ledger_of accepted.e store)
        (step4 (ledger_of accepted.e store) accepted.clock) output accepted.clock)
        (poll_result result store output) }
{
    let time = time_left(accepted.e.live, accepted.clock);
    Polled {
        answer: Ok(PollOutcome::Quiet(time)),
        endpoint: Endpoint {
            clock: accepted.clock,
            ..accepted.e
        },
    }
}
