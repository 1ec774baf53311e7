// The host endpoint as its callers hold it (document 01, "The ledger"): numbers by value, bytes in a store that the caller lends.
#![tactic(auto)]

ghost use Rattle.std.specs.Prelude.{◌≡◌};
ghost use Rattle.endpoint.specs.Endpoint.{rows_of};

use audit::HasId;
use command::{Fields, MAX_DATA, RequestId};
use line::HELD_MAX;
use link::frame::Frame;
use link::repeats::Seen;
use message::Seq;
use std::cmp::min;

// How many requests may be live ("at most three live requests").
pub const LIVE_MAX: usize = 3;

// The largest R ("R from 0 to 255").
pub const RESERVED_MAX: u64 = 255;

// The last request ID ("after 65535 comes R + 1").
pub const LAST_ID: u16 = 65535;

// How long a request waits for its response, in milliseconds ("at least 3,000 ms (house)").
pub const RESPONSE_TIME: u64 = 3000;

// The bytes of a store: those held from the line, then a room for the data of each live request.
pub const STORE_LENGTH: usize = HELD_MAX + LIVE_MAX * MAX_DATA;

// Where a live request stands: queued, its frame in flight, or waiting for its response from a reading of the clock on.
#[derive(Clone, Copy, Default)]
pub enum State {
    #[default]
    Queued,
    InFlight(Frame),
    Waiting(u64),
}

// A live request: its ID, the fields it was submitted with, whether a response is wanted, how many bytes of data it has, and where
// it stands. The data of the request in row i are in room i of the store.
// Stays: `len` here and the bytes in a room: an endpoint is handed on by value, and `host::submit` takes any store beside it.
#[derive(Clone, Copy, Default)]
pub struct Request {
    pub id: RequestId,
    pub fields: Fields,
    pub wanted: bool,
    pub len: usize,
    pub state: State,
}

// What the request-row audit reads of a request: its ID.
// Ruled out: the ID without its high byte, and the number of bytes of data.
impl HasId for Request {
    ghost id_of = { λ q. q.id.0 };

    fn id(&self) -> u16 {
        self.id.0
    }
}

// The live requests, oldest first: the first `count` rows. By default there are none.
// Stays: an array with a count and no vector of fixed room, since `malformed_rule::is_malformed` answers of a count over LIVE_MAX too.
#[derive(Clone, Copy, Default)]
pub struct Requests {
    pub rows: [Request; LIVE_MAX],
    pub count: usize,
}

impl Requests {
    // The rows in use, oldest first. A count over LIVE_MAX, which the malformed rule names, gives all rows.
    // Ruled out: a row that is not in use, and the last row in use left out.
    pub fn in_use(&self) -> &[Request]
        ensures { result.now ≡ rows_of self.now }
    {
        &self.rows[..min(self.count, LIVE_MAX)]
    }
}

// An endpoint, beside its store: the live requests, R, the last accepted reading of the clock, the next SEQ, the next request ID,
// what was seen of the controller's frames, and how many bytes are held at the front of the store.
#[derive(Clone, Copy)]
pub struct Endpoint {
    pub live: Requests,
    pub reserved: u64,
    pub clock: u64,
    pub seq: Seq,
    pub next: RequestId,
    pub seen: Seen,
    pub held: usize,
}
