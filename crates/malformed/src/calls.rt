// What submit, receive and poll answer to an endpoint.
use crate::endpoints::{CLOCK, EARLIER};
use command::Fields;
use endpoint::{Endpoint, STORE_LENGTH};
use host::{poll, receive, submit};
use host_answers::{PollAnswer, ReceiveAnswer, SubmitAnswer};
use ledger::Refusal;
use std::io;

// The line of an endpoint, with calls that nothing is wrong with but the endpoint.
pub(crate) fn print_answers(rt: &impl Print, what: &str, e: Endpoint) -> io::Result<()> {
    print_calls(rt, what, e, &[0; 248], &mut [0; 10], &mut [0; 266], CLOCK)
}

// The same with calls that the table refuses for other reasons too: submit with too much data, receive with too short a reply
// buffer, and poll with a reading below the last one and too short an output.
pub(crate) fn print_refusals(rt: &impl Print, what: &str, e: Endpoint) -> io::Result<()> {
    print_calls(rt, what, e, &[0; 249], &mut [0; 9], &mut [0; 265], EARLIER)
}

fn print_calls(
    rt: &impl Print,
    what: &str,
    e: Endpoint,
    data: &[u8],
    reply: &mut [u8],
    output: &mut [u8],
    clock: u64,
) -> io::Result<()> {
    print!(rt; "{what}: submit ")?;
    print_number(rt, submitted(e, data, CLOCK))?;
    print!(rt; ", receive ")?;
    print_number(rt, received(e, reply, &mut [0; 248], CLOCK))?;
    print!(rt; ", poll ")?;
    print_number(rt, polled(e, output, clock))?;
    println!(rt; "")
}

// What submit answers.
fn submitted(e: Endpoint, data: &[u8], clock: u64) -> SubmitAnswer {
    let mut store = [0; STORE_LENGTH];
    submit(e, &mut store, Fields::default(), data, false, clock).answer
}

// What a receive of no bytes answers.
fn received(e: Endpoint, reply: &mut [u8], buffer: &mut [u8], clock: u64) -> ReceiveAnswer {
    let mut store = [0; STORE_LENGTH];
    receive(e, &mut store, b"", reply, buffer, clock).answer
}

// What poll answers.
fn polled(e: Endpoint, output: &mut [u8], clock: u64) -> PollAnswer {
    let mut store = [0; STORE_LENGTH];
    poll(e, &mut store, output, clock).answer
}

// A refusal's number, or that the call is accepted.
fn print_number<T: Drop>(rt: &impl Print, answer: Result<T, Refusal>) -> io::Result<()> {
    match answer {
        Ok(_) => print!(rt; "accepted"),
        Err(refusal) => print!(rt; "{}", refusal.number()),
    }
}
