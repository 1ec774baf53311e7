// One message of the Surface Serial Hub protocol (document 01, "Bytes on the line", "How bytes become items"): what it is, and what
// its writer and its reader answer. They are crates of their own, `message_writer` and `message_reader`.
#![tactic(auto)]

pub mod header; // what a header may say

ghost use Rattle.std.specs.Prelude.{◌≡◌};
ghost use Rattle.message.specs.Items.{rule_of};
ghost use Rattle.message.specs.Promises.{item_of};

// A sequence ID: 8 bits, apart from the 16-bit request IDs.
#[derive(Clone, Copy, PartialEq, Eq)]
pub struct Seq(pub u8);

// Why a writer writes nothing: refusal 7, or refusal 6.
#[derive(Clone, Copy, PartialEq, Eq)]
pub enum WriteError {
    Forbidden,
    NoRoom,
}

// An item, by 01's names.
#[derive(Clone, Copy)]
pub enum Item {
    DamagedHeader,
    Forbidden,
    DamagedPayload,
    Message { kind: u8, seq: Seq, len: usize },
}

impl Item {
    // The number of the rule that decides it.
    // Ruled out: 4 for a damaged payload, and one number for two items.
    pub fn rule(self) -> u8
        ensures { result ≡ rule_of (item_of self) }
    {
        match self {
            Item::DamagedHeader => 2,
            Item::Forbidden => 3,
            Item::DamagedPayload => 5,
            Item::Message { .. } => 6,
        }
    }
}

// The first item of some bytes, and how many of them are removed with it.
#[derive(Clone, Copy)]
pub struct FirstItem {
    pub item: Item,
    pub removed: usize,
}

// What the bytes say so far: how many of them are dropped, and the first item, or `None` where none is decided yet.
#[derive(Drop)]
pub struct Reading {
    pub dropped: usize,
    pub first: Option<FirstItem>,
}
