// The payload of a message that was decided.
ghost use Rattle.std.specs.Prelude.{◌≡◌};
ghost use Rattle.line.specs.Promises.{part_of};

use crate::{Decision, Place};
use byte_slices::part;
use message::Item;

// The payload of what `decide` found, as a part of the array that it left or of the new bytes, and no copy: empty for all but a
// message.
// Ruled out: the payload of a damaged message, and a part of the array where the message stands in the new bytes.
pub fn payload<'a>(array: &'a [u8], new: &'a [u8], decision: Decision) -> &'a [u8]
    ensures { result.now ≡ part_of decision.answer decision.payload array.now new.now }
{
    let Some(Item::Message { len, .. }) = decision.answer else {
        return &new[..0];
    };
    match decision.payload {
        Place::Held(at) => part(array, at, len),
        Place::New(at) => part(new, at, len),
    }
}
