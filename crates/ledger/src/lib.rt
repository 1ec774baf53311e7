// What the host's calls must answer (document 01, "The ledger"): the definitions are in `specs/`. Here are the types that an
// endpoint and its callers share; a request's ID and its command's fields are those of `command`.
#![tactic(auto)]

ghost use Rattle.std.specs.Prelude.{◌≡◌};
ghost use Rattle.ledger.specs.Promises.{number_of};

use command::{Fields, RequestId};

// Why a request ended: its frame was acknowledged and no response was wanted, its response came, none came in 3,000 ms, or its
// frame went out three times without an acknowledgement.
#[derive(Clone, Copy)]
pub enum Cause {
    Acknowledged,
    Response,
    NoResponse,
    NoAcknowledgement,
}

// The ending of a request: which one, and why.
#[derive(Clone, Copy)]
pub struct Ending {
    pub id: RequestId,
    pub cause: Cause,
}

// A command that came: its fields, its request ID and how many bytes of data it has.
#[derive(Clone, Copy)]
pub struct Command {
    pub fields: Fields,
    pub id: RequestId,
    pub len: usize,
}

// A word that a message earns; an `Option<Word>` is "the word .. that a message earns, if any".
#[derive(Clone, Copy)]
pub enum Word {
    Stray,
    Repeat,
    NotCommand,
    Event(Command),
    Response(Command),
    Unmatched(Command),
}

// Why a call is refused, by the table of document 01 and in its order: endpoint malformed, clock below the last accepted reading, R over
// 255, data over 248 bytes, three live, a lent buffer too short.
#[derive(Clone, Copy, PartialEq, Eq)]
pub enum Refusal {
    Malformed = 1,
    ClockBelow = 2,
    ReservedOver = 3,
    DataOver = 4,
    AllLive = 5,
    BufferShort = 6,
}

impl Refusal {
    // Its number in the table.
    // Ruled out: numbers from 0, and one number for two lines.
    pub fn number(self) -> u8
        ensures { result ≡ number_of self }
    {
        self as u8
    }
}
