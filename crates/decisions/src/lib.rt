// What a message does, by its TYPE (document 01, "**Receive** replies and acts by item"): the word that it earns, the change that it
// makes to the live requests, and what is remembered of the controller's frames. Nothing is changed here.
#![tactic(auto)]

ghost use Rattle.decisions_verdict.specs.Verdicts.{Judges};

use decisions_acks::{on_ack, on_nak};
use decisions_data::on_data;
use decisions_verdict::{Verdict, says};
use endpoint::Endpoint;
use ledger::Word;
use message::Seq;
use message::header::{ACK, DATA_SEQ, NAK};

// What a message with this TYPE, SEQ and payload does at a reading of the clock. With DATA_SEQ a repeat is nothing more, and another SEQ
// becomes the last one.
// Ruled out: a NAK that restarts the count, a request that waits for a response it does not want, an event with ID 0 or above R, and a
// repeat that acts.
pub fn judge(e: Endpoint, kind: u8, seq: Seq, payload: &[u8], clock: u64) -> Verdict
    ensures { Judges result e kind seq.0 payload.now clock }
{
    let rows = e.live.in_use();
    let seen = e.seen;
    match kind {
        ACK => on_ack(rows, seq, clock).remembering(seen),
        NAK => on_nak(rows).remembering(seen),
        DATA_SEQ if seen.is_repeat(seq) => says(Word::Repeat).remembering(seen),
        DATA_SEQ => on_data(rows, e.reserved, payload).remembering(seen.after(seq)),
        _ => on_data(rows, e.reserved, payload).remembering(seen),
    }
}
