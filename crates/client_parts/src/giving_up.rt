// The second request, of which nothing is heard: its frame goes out twice more, and it ends.
ghost use Rattle.client_parts.specs.Parts.{GivesUp};

use crate::{GivenUp, Readings};
use endpoint::{Endpoint, STORE_LENGTH};
use host::poll;

// Polls when the frame is due, and once more after each transmission. Public for `client`.
// Ruled out: a fourth transmission, and a request that is live for ever.
pub fn give_up(
    e: Endpoint,
    store: &mut [u8; STORE_LENGTH],
    output: &mut [u8],
    at: Readings,
) -> GivenUp
    ensures { GivesUp result e store.old store.new output.old output.new at }
{
    let resending = poll(e, store, output, at.again);
    let resting = poll(resending.endpoint, store, output, at.again);
    let sending_last = poll(resting.endpoint, store, output, at.last);
    let resting_again = poll(sending_last.endpoint, store, output, at.last);
    let ending = poll(resting_again.endpoint, store, output, at.over);
    GivenUp {
        second: resending.answer,
        rests: resting.answer,
        third: sending_last.answer,
        calm: resting_again.answer,
        ended: ending.answer,
        endpoint: ending.endpoint,
    }
}
