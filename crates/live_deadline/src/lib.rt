// The time to the earliest deadline of the live requests: "with the milliseconds to the earliest such deadline, or *no deadline*"
// (document 01, **Poll** 4).
#![tactic(auto)]

ghost use Rattle.std.specs.Prelude.{◌≡◌};
ghost use Rattle.ledger.specs.Polling.{deadline_in, earlier, earliest};
ghost use Rattle.endpoint.specs.Endpoint.{state_of, rows_of};
ghost use Rattle.endpoint.specs.Malformed.{bare_of};
ghost use Rattle.live_deadline.specs.Deadlines.{time_of, left_of, NoneLate, IsInTime};

use endpoint::{RESPONSE_TIME, Requests, State};

// The milliseconds to the earliest deadline of the live requests, or none. For the host, which has refused a time later than the clock:
// it is its malformed endpoint.
// Ruled out: the latest deadline, and a time that wraps where one has passed.
pub fn time_left(live: Requests, clock: u64) -> Option<u64>
    requires { NoneLate clock (rows_of live) }
    ensures { time_of result ≡ left_of clock (earliest (bare_of (rows_of live))) }
{
    live.in_use()
        .iter()
        .filter_map(|q| left_in(q.state, clock))
        .min()
}

// The milliseconds to the deadline of a request in this state.
fn left_in(state: State, clock: u64) -> Option<u64>
    requires { IsInTime clock (state_of state) }
    ensures { time_of result ≡ left_of clock (deadline_in (state_of state)) }
{
    match state {
        State::Queued => None,
        State::InFlight(frame) => Some(frame.left(clock)),
        State::Waiting(since) => Some(RESPONSE_TIME.saturating_sub(clock - since)),
    }
}
