// What data do, of either kind (document 01, "**Receive** replies and acts by item"): not a command, an event, a response or
// unmatched.
#![tactic(auto)]

ghost use Rattle.std.specs.Prelude.{◌≡◌, ◌&&◌, List, [], ℕ, leb, length};
ghost use Rattle.command.specs.Payload.{data_in};
ghost use Rattle.ledger.specs.Parts.{Ledger, oldest};
ghost use Rattle.ledger.specs.Promises.{command_of};
ghost use Rattle.ledger.specs.Receiving.{provided, matches, on_response, on_data};
ghost use Rattle.endpoint.specs.Endpoint.{requests_from};
ghost use Rattle.live_changes.specs.Changing.{Names};
ghost use Rattle.decisions_verdict.specs.Verdicts.{effect_of};

use command::{Head, RequestId};
use decisions_verdict::{Effect, says};
use endpoint::Request;
use ledger::{Cause, Command, Word};
use live_changes::Change;
use live_search::is_answered;

// Data of either kind, of an endpoint with these rows in use.
// Ruled out: an event with ID 0 or above R, and a request that stays live after its response.
pub fn on_data(rows: &[Request], reserved: u64, payload: &[u8]) -> Effect
    ensures { ((l : Ledger) (clock : ℕ) (store : List ℕ) → l.live ≡ requests_from 0 rows.now store → l.reserved ≡ reserved
        → on_data l clock payload.now ≡ effect_of result payload.now l)
        × Names result.change (length rows.now) }
{
    let Some(Head { fields, id }) = command::reader::read(payload) else {
        return says(Word::NotCommand);
    };
    let len = command::reader::data(payload).len();
    let it = Command { fields, id, len };
    if is_event(reserved, id) {
        return says(Word::Event(it));
    }
    on_response(rows, it)
}

// "RQID 1 to R: *event*."
fn is_event(reserved: u64, id: RequestId) -> bool
    ensures { result ≡ (leb 1 id.0 && leb id.0 reserved) }
{
    1 <= id.0 && id.0 as u64 <= reserved
}

// The oldest request that a command answers ends; where there is none it is unmatched.
fn on_response(rows: &[Request], it: Command) -> Effect
    ensures { ((l : Ledger) (clock : ℕ) (store payload : List ℕ) → l.live ≡ requests_from 0 rows.now store
        → on_response l clock (command_of it) (data_in payload)
        (oldest (λ q. provided (matches (command_of it) q) tt) l.live) ≡ effect_of result payload l)
        × Names result.change (length rows.now) }
{
    let head = Head {
        fields: it.fields,
        id: it.id,
    };
    let Some(row) = rows.iter().position(|q| is_answered(q, head)) else {
        return says(Word::Unmatched(it));
    };
    Effect {
        word: Some(Word::Response(it)),
        change: Some(Change::End(row, Cause::Response)),
    }
}
