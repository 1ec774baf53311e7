// Rows of request records: the live requests of an endpoint, one waiting, one in flight, one queued.
use crate::print::{print_finding, print_id, print_reserved};
use command::{Fields, RequestId};
use endpoint::{Request, Requests, State};
use link::frame::Frame;
use message::Seq;
use std::io;

pub(crate) fn print_records(rt: &impl Print) -> io::Result<()> {
    print_live(rt, live(39, 40, 41, 3), 38)?;
    print_live(rt, live(39, 40, 41, 0), 38)?;
    print_live(rt, live(0, 40, 41, 3), 38)?;
    print_live(rt, live(39, 38, 41, 3), 38)?;
    print_live(rt, live(39, 40, 39, 3), 38)?;
    print_live(rt, live(39, 40, 39, 2), 38)
}

// Live requests by their IDs, of which the first `count` are in use.
pub(crate) fn live(first: u16, second: u16, third: u16, count: usize) -> Requests {
    let rows = [
        request(first, State::Waiting(5)),
        request(second, in_flight()),
        request(third, State::Queued),
    ];
    Requests { rows, count }
}

fn in_flight() -> State {
    State::InFlight(Frame {
        seq: Seq(0),
        transmissions: 1,
        sent: 5,
        marked: false,
    })
}

// Stays: a sample of its own, beside those of `malformed`: what the two programs share is less than a crate for it.
fn request(id: u16, state: State) -> Request {
    Request {
        id: RequestId(id),
        fields: Fields {
            tc: 3,
            tid: 1,
            sid: 0,
            iid: 1,
            cid: 1,
        },
        wanted: true,
        len: 0,
        state,
    }
}

// The line of live requests: the IDs of the rows in use.
fn print_live(rt: &impl Print, live: Requests, reserved: u64) -> io::Result<()> {
    print!(rt; "records")?;
    for q in live.in_use() {
        print_id(rt, q.id.0)?;
    }
    print_reserved(rt, reserved)?;
    print_finding(rt, record_audit::audit_live(live, reserved))
}
