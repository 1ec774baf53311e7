// What an ACK and a NAK do (document 01, "**Receive** replies and acts by item"): the frame in flight is acknowledged or marked.
#![tactic(auto)]

ghost use Rattle.std.specs.Prelude.{◌≡◌, List, ℕ, length};
ghost use Rattle.ledger.specs.Parts.{Ledger, oldest};
ghost use Rattle.ledger.specs.Receiving.{flies, acknowledged_in, on_ack, on_nak};
ghost use Rattle.endpoint.specs.Endpoint.{requests_from};
ghost use Rattle.live_changes.specs.Changing.{Names};
ghost use Rattle.decisions_verdict.specs.Verdicts.{effect_of};

use decisions_verdict::{Effect, says};
use endpoint::{Request, State};
use ledger::{Cause, Word};
use live_changes::Change;
use live_search::{flying, is_acknowledged};
use message::Seq;

// ACK, of an endpoint with these rows in use: the frame in flight with its SEQ is acknowledged.
// Ruled out: a request that waits for a response it does not want, and one that ends though a response is wanted.
pub fn on_ack(rows: &[Request], seq: Seq, clock: u64) -> Effect
    ensures { ((l : Ledger) (store payload : List ℕ) → l.live ≡ requests_from 0 rows.now store
        → on_ack l clock (oldest (λ q. acknowledged_in seq.0 q.state) l.live) ≡ effect_of result payload l)
        × Names result.change (length rows.now) }
{
    let Some(row) = rows.iter().position(|q| is_acknowledged(q.state, seq)) else {
        return says(Word::Stray);
    };
    let change = if rows[row].wanted {
        Change::Turn(row, State::Waiting(clock))
    } else {
        Change::End(row, Cause::Acknowledged)
    };
    Effect {
        word: None,
        change: Some(change),
    }
}

// NAK, likewise: the frame in flight is marked.
// Ruled out: a NAK that restarts the count of transmissions, and one that ends the request.
pub fn on_nak(rows: &[Request]) -> Effect
    ensures { ((l : Ledger) (clock : ℕ) (store payload : List ℕ) → l.live ≡ requests_from 0 rows.now store
        → on_nak l clock (oldest flies l.live) ≡ effect_of result payload l)
        × Names result.change (length rows.now) }
{
    let Some((row, frame)) = flying(rows) else {
        return says(Word::Stray);
    };
    Effect {
        word: None,
        change: Some(Change::Turn(row, State::InFlight(frame.with_mark()))),
    }
}
