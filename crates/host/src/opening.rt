// A fresh endpoint (document 01, "A fresh endpoint has clock 0, next request ID R + 1, nothing live and nothing held.").
ghost use Rattle.std.specs.Prelude.{◌≡◌, false, List, ℕ};
ghost use Rattle.ledger.specs.Parts.{fresh};
ghost use Rattle.endpoint.specs.Endpoint.{ledger_of};
ghost use Rattle.endpoint.specs.Malformed.{malformed};

use endpoint::{Endpoint, Requests};
use link::repeats::Seen;
use link::sequence::first;
use live_ids::first_id;

// The fresh endpoint for R.
pub(crate) fn fresh(reserved: u8) -> Endpoint
    ensures { ((store : List ℕ) → ledger_of result store ≡ fresh reserved) × (malformed result ≡ false) }
{
    Endpoint {
        live: Requests::default(),
        reserved: u64::from(reserved),
        clock: 0,
        seq: first(),
        next: first_id(reserved),
        seen: Seen::none(),
        held: 0,
    }
}
