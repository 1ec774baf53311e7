// The endpoint's calls for the benchmarks alone, many of them in a C function: an endpoint is no number and does not pass C's border.
// `include/fizrahum.h` does not declare them. Each answers a number in which the answers of all its calls count.
#![tactic(auto)]

mod steps; // one call each, counted into the number

use crate::steps::{
    OUTPUT_LENGTH, REPLY_LENGTH, Tally, acknowledge, fresh, hand_in, poll_at, poll_once,
    submit_some, with_poll,
};
use command::MAX_DATA;
use endpoint::STORE_LENGTH;

// The bytes of a piece.
const PIECE: usize = 64;

// So many rounds of an open and so many submits, of which the first three are accepted.
#[unsafe(no_mangle)]
pub extern "C" fn fizrahum_probe_submits(rounds: u64, each: u64) -> u64 {
    let mut store = [0; STORE_LENGTH];
    let mut sum = 0;
    for _ in 0..rounds {
        sum = submit_some(fresh(sum), &mut store, each).sum;
    }
    sum
}

// So many rounds of an open, a submit and three polls, each of which sends the frame.
#[unsafe(no_mangle)]
pub extern "C" fn fizrahum_probe_sends(rounds: u64) -> u64 {
    let mut store = [0; STORE_LENGTH];
    let mut output = [0; OUTPUT_LENGTH];
    let mut sum = 0;
    for _ in 0..rounds {
        sum = send_three(fresh(sum), &mut store, &mut output).sum;
    }
    sum
}

// A submit, and polls at its three times.
fn send_three(
    tally: Tally,
    store: &mut [u8; STORE_LENGTH],
    output: &mut [u8; OUTPUT_LENGTH],
) -> Tally {
    let queued = submit_some(tally, store, 1);
    let first = poll_at(queued, store, output, 0);
    let second = poll_at(first, store, output, 1000);
    poll_at(second, store, output, 2000)
}

// So many polls that answer *quiet*, of an endpoint with one request waiting, one in flight and one queued.
#[unsafe(no_mangle)]
pub extern "C" fn fizrahum_probe_quiet_polls(polls: u64) -> u64 {
    let mut store = [0; STORE_LENGTH];
    let mut output = [0; OUTPUT_LENGTH];
    let start = busy(&mut store, &mut output);
    let mut e = start.endpoint;
    let mut sum = start.sum;
    for _ in 0..polls {
        let done = poll_once(e, &mut store, &mut output, 0);
        e = done.endpoint;
        sum = with_poll(sum, done.answer, &output);
    }
    sum
}

// An endpoint with one request waiting, one in flight and one queued.
fn busy(store: &mut [u8; STORE_LENGTH], output: &mut [u8; OUTPUT_LENGTH]) -> Tally {
    let queued = submit_some(fresh(0), store, 3);
    let sent = poll_at(queued, store, output, 0);
    let waiting = acknowledge(sent, store);
    poll_at(waiting, store, output, 0)
}

// Receives: the bytes in pieces, each handed in and its untaken rest again until *more*.
#[unsafe(no_mangle)]
pub extern "C" fn fizrahum_probe_receives(bytes: &[u8]) -> u64 {
    let mut store = [0; STORE_LENGTH];
    let mut reply = [0; REPLY_LENGTH];
    let mut buffer = [0; MAX_DATA];
    let mut tally = fresh(0);
    for piece in bytes.chunks_exact(PIECE) {
        tally = hand_in(tally, &mut store, piece, &mut reply, &mut buffer);
    }
    tally.sum
}
