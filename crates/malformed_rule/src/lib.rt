// The malformed rule (document 01, "Malformed means one of"): R, the rows of live requests, the next ID, the bytes held.
#![tactic(auto)]

ghost use Rattle.std.specs.Prelude.{◌≡◌};
ghost use Rattle.ledger.specs.Submitting.{is_live};
ghost use Rattle.ledger.specs.Refusals.{flights};
ghost use Rattle.endpoint.specs.Malformed.{bare_of, malformed};
ghost use Rattle.endpoint.specs.Code.{some_bad};

use command::RequestId;
use endpoint::{Endpoint, LIVE_MAX, RESERVED_MAX, Request, State};
use line::HELD_MAX;
use malformed_request::{is_bad, is_outside};

// Whether an endpoint is malformed.
// Ruled out: two requests in flight let through, and an endpoint refused that the rule does not name.
pub fn is_malformed(e: Endpoint) -> bool
    ensures { result ≡ malformed e }
{
    let rows = e.live.in_use();
    RESERVED_MAX < e.reserved
        || LIVE_MAX < e.live.count
        || is_outside(e.reserved, e.next)
        || HELD_MAX < e.held
        || 1 < in_flight(rows)
        || some_bad(rows, e.reserved, e.clock)
}

// How many requests are in flight.
fn in_flight(rows: &[Request]) -> usize
    ensures { result ≡ flights (bare_of rows.now) }
{
    rows.iter()
        .filter(|q| matches!(q.state, State::InFlight(_)))
        .count()
}

// Whether some request breaks the rule by itself, or has the ID of a later one.
fn some_bad(rows: &[Request], reserved: u64, clock: u64) -> bool
    ensures { result ≡ some_bad reserved clock rows.now }
{
    rows.iter().enumerate().any(|(i, q)| is_bad(*q, reserved, clock)
        || is_among(&rows[i + 1..], q.id))
}

// Whether an ID is that of one of these rows.
// Ruled out: the last row left out, and an ID that is larger taken for an equal one.
pub fn is_among(rows: &[Request], id: RequestId) -> bool
    ensures { result ≡ is_live id.0 (bare_of rows.now) }
{
    rows.iter().any(|q| q.id == id)
}
