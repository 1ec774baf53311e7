// The ID that a submit issues (document 01, **Submit**: "The ID is the first one not live, from the next request ID on"). R is 255 at most
// ("R from 0 to 255"): of an endpoint's R a clause says so, which the callers have seen to, and in `first_id` its type.
#![tactic(auto)]

ghost use Rattle.std.specs.Prelude.{◌≡◌, ◌≤◌, length};
ghost use Rattle.ledger.specs.Parts.{reserved_max, fresh};
ghost use Rattle.ledger.specs.Submitting.{id_after, first_free};
ghost use Rattle.endpoint.specs.Malformed.{bare_of};

use command::RequestId;
use endpoint::{LAST_ID, Request};
use malformed_rule::is_among;

// The first ID that none of these rows has, from one on: no more are passed over than there are rows.
// Ruled out: an ID that is live, and 0 after 65535.
// Stays: the clause `reserved ≤ reserved_max` may not ask more: R is a number of 64 bits in an endpoint, and may be handed in as it stands there.
#[tactic(auto, using(crate::proofs::FirstFree::free))]
pub fn first_free(rows: &[Request], reserved: u64, from: RequestId) -> RequestId
    requires { reserved ≤ reserved_max }
    ensures { result.0 ≡ first_free (length rows.now) reserved (bare_of rows.now) from.0 }
{
    let mut id = from;
    for _ in rows {
        if !is_among(rows, id) {
            return id;
        }
        id = id_after(reserved, id);
    }
    id
}

// The ID after one: "after 65535 comes R + 1".
// Ruled out: 0 after 65535, and a counter that stays at 65535.
// Stays: the clause `reserved ≤ reserved_max`, likewise.
#[tactic(auto, unfolding(ledger::specs::Submitting::id_after))]
pub fn id_after(reserved: u64, id: RequestId) -> RequestId
    requires { reserved ≤ reserved_max }
    ensures { result.0 ≡ id_after reserved id.0 }
{
    if id.0 == LAST_ID {
        return first_id(reserved as u8);
    }
    RequestId(id.0 + 1)
}

// The lowest ID that is issued, R + 1: the first one of a fresh endpoint.
// Ruled out: R, which is kept for events, and 0 where R is 255.
pub fn first_id(reserved: u8) -> RequestId
    ensures { result.0 ≡ (fresh reserved).next_id }
{
    RequestId(u16::from(reserved) + 1)
}
