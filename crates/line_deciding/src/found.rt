// What the reader found of the held bytes alone, or of the new ones, and what is held behind it.
ghost use Rattle.std.specs.Prelude.{◌≡◌, [], ◌+◌, ◌≤◌, length, Some};
ghost use Rattle.message.specs.Bytes.{header_length};
ghost use Rattle.message.specs.Items.{scan};
ghost use Rattle.message.specs.Promises.{scan_with};
ghost use Rattle.line.specs.Receiving.{held_max, taken};
ghost use Rattle.line.specs.Promises.{Decides};
ghost use Rattle.line.specs.declared.Place.TheVariants.{Held};

use line::store::put_at;
use line::{Decision, HELD_MAX, Place};
use message::header::{HEADER_LENGTH, total_length};
use message::{FirstItem, Item};
use message_reader::len_in;

// An item, and how many bytes are dropped before it.
#[derive(Clone, Copy)]
pub(crate) struct Found {
    pub dropped: usize,
    pub first: FirstItem,
}

impl Found {
    // An item of the array's first count bytes alone: none is moved, and no new one taken.
    pub(crate) fn in_array(self, count: usize) -> Decision
        requires { (self.dropped + self.first.removed ≤ count) × (count ≤ held_max) }
        ensures { (result.answer ≡ Some self.first.item) × (result.taken ≡ 0) × (result.start ≡ self.dropped + self.first.removed)
            × (result.start + result.count ≡ count) × (result.payload ≡ Held (self.dropped + header_length)) }
    {
        let start = self.dropped + self.first.removed;
        Decision {
            answer: Some(self.first.item),
            taken: 0,
            start,
            count: count - start,
            payload: Place::Held(self.dropped + HEADER_LENGTH),
        }
    }

    // An item of the new bytes: what follows it, of the bytes that decide it, is held.
    pub(crate) fn in_new(self, array: &mut [u8; HELD_MAX], new: &[u8]) -> Decision
        requires { scan new.now ≡ scan_with self.dropped (Some self.first) }
        ensures { Decides result [] new.now array.new }
    {
        let end = self.deciding_length(new);
        let follows = &new[self.dropped + self.first.removed..end];
        put_at(array, 0, follows);
        Decision {
            answer: Some(self.first.item),
            taken: end,
            start: 0,
            count: follows.len(),
            payload: Place::New(self.dropped + HEADER_LENGTH),
        }
    }

    // How many of the new bytes decided the item: up to the end of its header, or of the whole message.
    #[tactic(auto, using(message::proofs::Buffer::tail, message::proofs::Found::scan_within, message::proofs::Found::message_at, line::proofs::Gives::ends, line::proofs::Reach::reach_within, line::proofs::Taking::taken_new))]
    fn deciding_length(self, new: &[u8]) -> usize
        requires { scan new.now ≡ scan_with self.dropped (Some self.first) }
        ensures { (result ≡ taken [] new.now) × (self.dropped + self.first.removed ≤ result) × (self.dropped + header_length ≤ result)
            × (result ≤ length new.now) × (result ≤ self.dropped + self.first.removed + held_max) }
    {
        match self.first.item {
            Item::DamagedHeader | Item::Forbidden => self.dropped + HEADER_LENGTH,
            Item::DamagedPayload => self.dropped + total_length(len_in(&new[self.dropped..])),
            Item::Message { .. } => self.dropped + self.first.removed,
        }
    }
}
