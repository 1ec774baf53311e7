// Which calls the table refuses, in its order (document 01, "Refusal numbers, tested in this order"). The checks are public for the crate
// of the calls alone.
#![tactic(auto, unfolding(ledger::specs::Refusals::first_of))]

ghost use Rattle.std.specs.Prelude.{◌≡◌, ◌||◌, [], ◌∷◌, eqb, ltb};
ghost use Rattle.message.specs.Bytes.{total, max_len};
ghost use Rattle.command.specs.Payload.{max_data};
ghost use Rattle.ledger.specs.Parts.{live_max};
ghost use Rattle.ledger.specs.Refusals.{line, first_of};
ghost use Rattle.refusals.specs.Code.{check_of, with_endpoint};

use command::MAX_DATA;
use command::writer::is_too_long;
use endpoint::{Endpoint, LIVE_MAX};
use ledger::Refusal;
use malformed_rule::is_malformed;
use message::header::{MAX_LEN, OVERHEAD};

// The lines of every call with a clock, 1 and 2.
fn check_endpoint(e: Endpoint, clock: u64) -> Result<(), Refusal>
    ensures { check_of result ≡ first_of (with_endpoint e clock []) }
{
    if is_malformed(e) {
        return Err(Refusal::Malformed);
    }
    if clock < e.clock {
        return Err(Refusal::ClockBelow);
    }
    Ok(()) // neither 1 nor 2
}

// Submit: 1, 2, then "data over 248 bytes" and "three live".
// Ruled out: 5 before 4, and a fourth live request let through.
pub fn check_submit(e: Endpoint, len: usize, clock: u64) -> Result<(), Refusal>
    ensures { check_of result
        ≡ first_of (with_endpoint e clock (line 4 (ltb max_data len) ∷ line 5 (eqb e.live.count live_max) ∷ [])) }
{
    check_endpoint(e, clock)?;
    if is_too_long(len) {
        return Err(Refusal::DataOver);
    }
    if e.live.count == LIVE_MAX {
        return Err(Refusal::AllLive);
    }
    Ok(())
}

// Receive: 1, 2, then "reply buffer under 10 or data buffer under 248".
// Ruled out: a reply buffer of 9 let through, and a data buffer of 248 refused.
pub fn check_receive(e: Endpoint, reply: usize, buffer: usize, clock: u64) -> Result<(), Refusal>
    ensures { check_of result
        ≡ first_of (with_endpoint e clock (line 6 (ltb reply (total 0) || ltb buffer max_data) ∷ [])) }
{
    check_endpoint(e, clock)?;
    if reply < OVERHEAD || buffer < MAX_DATA {
        return Err(Refusal::BufferShort);
    }
    Ok(())
}

// Poll: 1, 2, then "output buffer under 266".
// Ruled out: an output of 265 let through, and 6 before 2.
pub fn check_poll(e: Endpoint, output: usize, clock: u64) -> Result<(), Refusal>
    ensures { check_of result ≡ first_of (with_endpoint e clock (line 6 (ltb output (total max_len)) ∷ [])) }
{
    check_endpoint(e, clock)?;
    if output < OVERHEAD + MAX_LEN {
        return Err(Refusal::BufferShort);
    }
    Ok(())
}
