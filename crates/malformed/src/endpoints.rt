// An endpoint that meets every limit of the malformed rule exactly, and changes of it.
ghost use Rattle.std.specs.Prelude.{◌<◌};

use command::{Fields, RequestId};
use endpoint::{Endpoint, LIVE_MAX, Request, Requests, State};
use link::frame::Frame;
use link::repeats::Seen;
use message::Seq;

// The last accepted reading, one below it and one above.
pub(crate) const CLOCK: u64 = 5;

pub(crate) const EARLIER: u64 = 4;

pub(crate) const LATER: u64 = 6;

// R = 255, three live, 265 held.
pub(crate) fn sound() -> Endpoint {
    of_rows([first(), second(), third()])
}

// It waits since the last reading, with the last ID.
pub(crate) fn first() -> Request {
    request(65535, State::Waiting(CLOCK))
}

// It was sent for the third time at the last reading, with the first ID.
pub(crate) fn second() -> Request {
    request(256, flight(3, CLOCK))
}

// It is queued.
pub(crate) fn third() -> Request {
    request(257, State::Queued)
}

// A request with 248 bytes of data that wants a response.
fn request(id: u16, state: State) -> Request {
    Request {
        id: RequestId(id),
        fields: Fields {
            tc: 3,
            tid: 1,
            sid: 0,
            iid: 1,
            cid: 1,
        },
        wanted: true,
        len: 248,
        state,
    }
}

// A frame in flight.
pub(crate) fn flight(transmissions: u8, sent: u64) -> State {
    State::InFlight(Frame {
        seq: Seq(0),
        transmissions,
        sent,
        marked: false,
    })
}

pub(crate) fn with_id(q: Request, id: u16) -> Request {
    let id = RequestId(id);
    Request { id, ..q }
}

pub(crate) fn with_state(q: Request, state: State) -> Request {
    Request { state, ..q }
}

pub(crate) fn with_len(q: Request, len: usize) -> Request {
    Request { len, ..q }
}

pub(crate) fn unwanted(q: Request) -> Request {
    Request { wanted: false, ..q }
}

// The endpoint with another request in this row, counted from 0.
pub(crate) fn with_row(row: usize, q: Request) -> Endpoint
    requires { row < 3 }
{
    let mut rows = [first(), second(), third()];
    rows[row] = q;
    of_rows(rows)
}

// An endpoint with these three live.
pub(crate) fn of_rows(rows: [Request; LIVE_MAX]) -> Endpoint {
    Endpoint {
        live: Requests { rows, count: 3 },
        reserved: 255,
        clock: CLOCK,
        seq: Seq(1),
        next: RequestId(256),
        seen: Seen::none(),
        held: 265,
    }
}

pub(crate) fn with_reserved(e: Endpoint, reserved: u64) -> Endpoint {
    Endpoint { reserved, ..e }
}

pub(crate) fn with_next(e: Endpoint, id: u16) -> Endpoint {
    let next = RequestId(id);
    Endpoint { next, ..e }
}

pub(crate) fn with_held(e: Endpoint, held: usize) -> Endpoint {
    Endpoint { held, ..e }
}

pub(crate) fn with_count(e: Endpoint, count: usize) -> Endpoint {
    let live = Requests { count, ..e.live };
    Endpoint { live, ..e }
}
