// What a search among the live requests looks for: "the oldest" that shows something (document 01, **Receive** and **Poll**). The rows
// stand oldest first, so `position` with one of these tests finds it; the one in flight is found with its frame.
#![tactic(auto)]

ghost use Rattle.std.specs.Prelude.{◌≡◌, []};
ghost use Rattle.command.specs.Promises.{fields_of};
ghost use Rattle.ledger.specs.Receiving.{acknowledged_in, matches};
ghost use Rattle.ledger.specs.Polling.{overdue_in, queued_in};
ghost use Rattle.endpoint.specs.Endpoint.{state_of, request_of};
ghost use Rattle.live_search.specs.Searching.{is_shown, command_with, IsFlight};

use command::Head;
use endpoint::{RESPONSE_TIME, Request, State};
use link::frame::Frame;
use message::Seq;

// Waiting, with clock minus since at least 3,000 ms.
// Ruled out: a time that is up a millisecond late, and one that is up before the request waits.
pub fn is_overdue(state: State, clock: u64) -> bool
    ensures { result ≡ is_shown (overdue_in clock (state_of state)) }
{
    matches!(state, State::Waiting(since) if RESPONSE_TIME <= clock.saturating_sub(since))
}

// The oldest in flight: its row and its frame.
// Ruled out: a queued request taken for one in flight, and a newer frame than the oldest.
pub fn flying(rows: &[Request]) -> Option<(usize, Frame)>
    ensures { IsFlight result rows.now }
{
    rows.iter().enumerate().find_map(|(row, q)| match q.state {
        State::InFlight(frame) => Some((row, frame)),
        _ => None,
    })
}

// Queued.
// Ruled out: a request in flight taken for a queued one, and a waiting one.
pub fn is_queued(state: State) -> bool
    ensures { result ≡ is_shown (queued_in (state_of state)) }
{
    matches!(state, State::Queued)
}

// In flight with this SEQ.
// Ruled out: a request in flight with an older SEQ, and one that waits.
pub fn is_acknowledged(state: State, seq: Seq) -> bool
    ensures { result ≡ is_shown (acknowledged_in seq.0 (state_of state)) }
{
    matches!(state, State::InFlight(frame) if frame.is_acknowledged_by(seq))
}

// In flight or waiting, with a response wanted, the same ID, and fields that the command's answer.
// Ruled out: a request with the same ID and other fields, and one that was not sent.
#[tactic(auto, unfolding(ledger::specs::Receiving::matches))]
pub fn is_answered(q: &Request, head: Head) -> bool
    ensures { result ≡ matches (command_with (fields_of head.fields) head.id.0 0) (request_of q.now []) }
{
    !is_queued(q.state) && q.wanted && q.id == head.id && q.fields.is_answered_by(head.fields)
}
