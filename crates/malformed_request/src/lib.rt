// The malformed rule for one request (document 01, "Malformed means one of"): its ID, its data, its state.
#![tactic(auto)]

ghost use Rattle.std.specs.Prelude.{◌≡◌};
ghost use Rattle.ledger.specs.Refusals.{is_outside};
ghost use Rattle.endpoint.specs.Endpoint.{state_of};
ghost use Rattle.endpoint.specs.Code.{bad_state, bad_request};

use command::RequestId;
use command::writer::is_too_long;
use endpoint::{Request, State};
use link::frame::MAX_TRANSMISSIONS;

// Whether an ID is outside R + 1 to 65535. For `malformed_rule`, which asks it of the next ID too.
// Ruled out: an ID of R let through, and the first ID, R + 1, refused.
pub fn is_outside(reserved: u64, id: RequestId) -> bool
    ensures { result ≡ is_outside reserved id.0 }
{
    id.0 as u64 <= reserved
}

// Whether a request breaks the rule by itself. For `malformed_rule`, which asks it of each row in use.
// Ruled out: 249 bytes of data let through, and a frame that went out three times refused.
#[tactic(auto, unfolding(endpoint::specs::Code::bad_request))]
pub fn is_bad(q: Request, reserved: u64, clock: u64) -> bool
    ensures { result ≡ bad_request reserved clock q }
{
    is_outside(reserved, q.id) || is_too_long(q.len) || is_bad_state(q.state, q.wanted, clock)
}

// Whether a state breaks the rule: transmissions not 1 to 3, waiting where no response is wanted, a time later than the clock.
fn is_bad_state(state: State, wanted: bool, clock: u64) -> bool
    ensures { result ≡ bad_state clock wanted (state_of state) }
{
    match state {
        State::Queued => false,
        State::InFlight(f) => {
            f.transmissions < 1 || MAX_TRANSMISSIONS < f.transmissions || clock < f.sent
        }
        State::Waiting(since) => !wanted || clock < since,
    }
}
