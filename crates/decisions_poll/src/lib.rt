// What a poll does: "the first that applies" (document 01, **Poll** 1 to 4). Only the live requests and the clock decide.
#![tactic(auto)]

ghost use Rattle.std.specs.Prelude.{◌≡◌, ℕ, ◌<◌};
ghost use Rattle.link.specs.Promises.{frame_of};
ghost use Rattle.ledger.specs.Parts.{Ledger};
ghost use Rattle.decisions_poll.specs.Steps.{step_of, Reaches, Steps, frame_act};

use endpoint::Requests;
use ledger::Cause;
use link::frame::Frame;
use live_search::{flying, is_overdue, is_queued};

// The request in a row ends, its frame is sent again as this one, or it is sent for the first time.
#[derive(Drop)]
pub enum Step {
    End(usize, Cause),
    Again(usize, Frame),
    First(usize),
}

// The step that applies first, if any.
// Ruled out: a frame before a wait that is over, a queued request sent while one is in flight, and a mark that stays.
pub fn next_step(live: Requests, clock: u64) -> Option<Step>
    ensures { Steps result live clock }
{
    let rows = live.in_use();
    if let Some(overdue) = rows.iter().position(|q| is_overdue(q.state, clock)) {
        return Some(Step::End(overdue, Cause::NoResponse));
    }
    if let Some((row, frame)) = flying(rows) {
        return frame_step(row, frame, clock);
    }
    let queued = rows.iter().position(|q| is_queued(q.state))?;
    Some(Step::First(queued))
}

// What is to be done with the frame in flight, if anything.
#[tactic(auto, using(link::proofs::Laws::may_go_again_law))]
fn frame_step(row: usize, frame: Frame, clock: u64) -> Option<Step>
    ensures { ((l : Ledger) → step_of result l clock ≡ frame_act l clock (frame_of frame) row)
        × ((n : ℕ) → row < n → Reaches result n) }
{
    if !frame.is_due(clock) {
        return None;
    }
    if frame.may_go_again() {
        return Some(Step::Again(row, frame.again(clock)));
    }
    Some(Step::End(row, Cause::NoAcknowledgement))
}
