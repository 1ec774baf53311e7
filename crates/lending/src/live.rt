// Live requests with their rows, R as an endpoint has it, and a store as a slice.
ghost use Rattle.std.specs.Prelude.{◌≡◌, [], ◌∷◌, ◌++◌, ◌≤◌, ◌<◌, length};
ghost use Rattle.command.specs.Payload.{max_data};
ghost use Rattle.ledger.specs.Parts.{live_max, reserved_max};
ghost use Rattle.ledger.specs.Submitting as ids;
ghost use Rattle.endpoint.specs.Endpoint.{store_length, request_of, live_of, rows_of};
ghost use Rattle.endpoint.specs.Malformed.{bare_of};
ghost use Rattle.endpoint.specs.Places.{Fits};
ghost use Rattle.live_changes.specs.Changing.{changed, Names, Becomes};

use command::RequestId;
use endpoint::{Request, Requests};
use live_changes::{Change, carry_out, joined};
use live_ids::{first_free, id_after};

fn free_id(live: Requests, reserved: u64, from: RequestId) -> RequestId
    requires { (live.count ≤ live_max) × (reserved ≤ reserved_max) }
    ensures { result.0 ≡ ids.first_free live.count reserved (bare_of (rows_of live)) from.0 }
{
    first_free(live.in_use(), reserved, from)
}

fn next_id(reserved: u64, id: RequestId) -> RequestId
    requires { reserved ≤ reserved_max }
    ensures { result.0 ≡ ids.id_after reserved id.0 }
{
    id_after(reserved, id)
}

fn change_in(live: Requests, store: &mut [u8], change: Option<Change>) -> Requests
    requires { (length store.old ≡ store_length) × Fits live × Names change live.count }
    ensures { Becomes result (changed change (live_of live store.old)) store.old store.new }
{
    carry_out(live, store, change)
}

fn join_in(live: Requests, store: &mut [u8], it: Request, data: &[u8]) -> Requests
    requires { (length store.old ≡ store_length) × Fits live × (live.count < live_max)
        × (it.len ≡ length «data».now) × (it.len ≤ max_data) }
    ensures { Becomes result (live_of live store.old ++ (request_of it «data».now ∷ []))
        store.old store.new }
{
    joined(live, store, it, data)
}
