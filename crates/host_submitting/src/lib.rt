// Submit (document 01, **Submit**), with the store as a slice of its length: for `host`, which lends it by its type, and adds what the call
// says of every list of calls.
#![tactic(auto)]

ghost use Rattle.std.specs.Prelude.{◌≡◌, ◌≤◌, ◌<◌, length};
ghost use Rattle.command.specs.Payload.{max_data};
ghost use Rattle.command.specs.Promises.{fields_of};
ghost use Rattle.ledger.specs.Parts.{live_max};
ghost use Rattle.ledger.specs.Submitting as ledger;
ghost use Rattle.endpoint.specs.Endpoint.{store_length, ledger_of};
ghost use Rattle.host_answers.specs.Promises as promise;
ghost use Rattle.host_answers.specs.Promises.{submit_result};
ghost use Rattle.host_answers.specs.Code.{Does};

use command::Fields;
use endpoint::{Endpoint, Request, STORE_LENGTH, State};
use host_answers::{Accepted, Submitted};
use live_ids::{first_free, id_after};
use refusals::check_submit;

// What `host::submit` does and promises.
// Stays: the clause `length store.old ≡ store_length` may not ask more: any slice of that length may be lent, and no array alone.
#[tactic(auto, using(host_answers::proofs::Calls::sound_of, crate::proofs::Joining::room_of))]
pub fn submit_in(
    e: Endpoint,
    store: &mut [u8],
    fields: Fields,
    data: &[u8],
    wanted: bool,
    clock: u64,
) -> Submitted
    requires { length store.old ≡ store_length }
    ensures { promise.Submitted result e fields «data».now wanted clock store.old store.new }
{
    match check_submit(e, data.len(), clock) {
        Err(refusal) => Submitted::refused(e, refusal),
        Ok(()) => accept(
            Accepted { e, clock },
            store.as_mut_array().unwrap(),
            fields,
            data,
            wanted,
        ),
    }
}

// A submit that the table does not refuse: "The request joins as queued."
// Stays: the clause `length «data».now ≤ max_data`, as for `frames::put_command`.
fn accept(
    accepted: Accepted,
    store: &mut [u8; STORE_LENGTH],
    fields: Fields,
    data: &[u8],
    wanted: bool,
) -> Submitted
    requires { (length «data».now ≤ max_data) × (accepted.e.live.count < live_max) }
    ensures { Does (ledger.submit (ledger_of accepted.e store.old) (fields_of fields) «data».now wanted
        accepted.clock) (submit_result result store.new) }
{
    let e = accepted.e;
    let reserved = u64::from(accepted.reserved());
    let id = first_free(e.live.in_use(), reserved, e.next);
    let it = Request {
        id,
        fields,
        wanted,
        len: data.len(),
        state: State::Queued,
    };
    let live = accepted.live().joined(store, it, data);
    let next = id_after(reserved, id);
    Submitted {
        answer: Ok(id),
        endpoint: Endpoint {
            live: live.requests,
            next,
            clock: accepted.clock,
            ..e
        },
    }
}
