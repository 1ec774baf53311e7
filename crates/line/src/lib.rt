// Held bytes and new ones become at most one item a call (document 01, "How bytes become items"): what a call gives, with its laws,
// and what the crates above share. `line_joining` and `line_deciding` find the item, `line_receiving` has the calls.
#![tactic(auto)]

pub mod payload; // the payload of a message
pub mod store; // bytes moved within the lent array

ghost use Rattle.std.specs.Prelude.{◌+◌, ◌≤◌};
ghost use Rattle.line.specs.Receiving.{held_max};

use message::Item;

// The most bytes that are held between calls ("At most 265 bytes are held").
pub const HELD_MAX: usize = 265;

// Where the payload of a message begins: at this place of the lent array, or of the new bytes.
#[derive(Clone, Copy)]
pub enum Place {
    Held(usize),
    New(usize),
}

// A part of the lent array: where it begins, and how many bytes it has.
#[derive(Clone, Copy)]
pub struct Part {
    pub from: usize,
    pub count: usize,
    ghost within: { from + count ≤ held_max },
}

// What was decided: the item, or `None` for *more*, how many new bytes it takes, the part of the array that is to be held, and where
// the payload of a message begins. The payload stays where it stands until `settle` puts that part at the front.
// Stays: a `Place` and no Option of one, since `answer` says already whether there is a payload; `start` and `count` and no `Part`,
// since `settle` takes any that lie in the slice it is lent.
#[derive(Clone, Copy)]
pub struct Decision {
    pub answer: Option<Item>,
    pub taken: usize,
    pub start: usize,
    pub count: usize,
    pub payload: Place,
}

// The item, or `None` for *more*, the new bytes taken, and how many bytes are held now.
#[derive(Drop)]
pub struct Received {
    pub answer: Option<Item>,
    pub taken: usize,
    pub count: usize,
}
