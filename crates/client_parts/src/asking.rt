// A request, and its frame on the line: a submit, the poll that sends and a poll that has nothing to do.
ghost use Rattle.command.specs.Promises.{fields_of};
ghost use Rattle.client_parts.specs.Parts.{Asks};

use crate::Asked;
use command::Fields;
use endpoint::{Endpoint, STORE_LENGTH};
use host::{poll, submit};

// Asks with a response wanted, sends the frame, and polls once more at the same reading. Public for `client`.
// Ruled out: a request ID that was issued before, and a frame that is not the request's.
pub fn ask(
    e: Endpoint,
    store: &mut [u8; STORE_LENGTH],
    fields: Fields,
    data: &[u8],
    output: &mut [u8],
    clock: u64,
) -> Asked
    ensures { Asks result e store.old store.new (fields_of fields) «data».now output.old
        output.new clock }
{
    let submitted = submit(e, store, fields, data, true, clock);
    let sending = poll(submitted.endpoint, store, output, clock);
    let resting = poll(sending.endpoint, store, output, clock);
    Asked {
        id: submitted.answer,
        sent: sending.answer,
        rests: resting.answer,
        endpoint: resting.endpoint,
    }
}
