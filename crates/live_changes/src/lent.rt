// The changes for whoever holds live requests whose rows fit, and lends any slice that is as long as a store.
// Stays: the clauses `length store.old ≡ store_length` and `Fits live` may not ask more: any requests and slice of which they hold go. The
// crates above have an array and a `Live`, and call the methods.
ghost use Rattle.std.specs.Prelude.{◌≡◌, [], ◌∷◌, ◌++◌, ◌≤◌, ◌<◌, length};
ghost use Rattle.command.specs.Payload.{max_data};
ghost use Rattle.ledger.specs.Parts.{live_max};
ghost use Rattle.endpoint.specs.Endpoint.{store_length, request_of, live_of};
ghost use Rattle.endpoint.specs.Places.{Fits};
ghost use Rattle.live_changes.specs.Changing.{changed, Names, Becomes};

use crate::{Change, Live};
use endpoint::{Request, Requests};

// Carries out a change, if any. Asks for a store of its length, rows that fit and a row in use.
// Ruled out: another request touched than the one named, and an ended request's data left to the next one.
pub fn carry_out(live: Requests, store: &mut [u8], change: Option<Change>) -> Requests
    requires { (length store.old ≡ store_length) × Fits live × Names change live.count }
    ensures { Becomes result (changed change (live_of live store.old)) store.old store.new }
{
    let before = Live { requests: live };
    let after = before.carry_out(store.as_mut_array().unwrap(), change);
    after.requests
}

// A request joins behind the others, with its data.
// Ruled out: one that joins in front, and data in another's room.
pub fn joined(live: Requests, store: &mut [u8], it: Request, data: &[u8]) -> Requests
    requires { (length store.old ≡ store_length) × Fits live × (live.count < live_max)
        × (it.len ≡ length «data».now) × (it.len ≤ max_data) }
    ensures { Becomes result (live_of live store.old ++ (request_of it «data».now ∷ []))
        store.old store.new }
{
    let others = Live { requests: live };
    let longer = others.joined(store.as_mut_array().unwrap(), it, data);
    longer.requests
}
