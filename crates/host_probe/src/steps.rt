// One call each, with its answer counted into a number.
use command::{Fields, MAX_DATA};
use endpoint::{Endpoint, STORE_LENGTH};
use host::{open, poll, receive, submit};
use host_answers::{PollAnswer, PollOutcome, Polled, Receipt, SubmitAnswer};
use ledger::{Ending, Refusal, Word};
use message::header::{MAX_LEN, OVERHEAD};

// The shortest buffers that no call refuses: a message without a payload, and the longest.
pub(crate) const REPLY_LENGTH: usize = OVERHEAD;

pub(crate) const OUTPUT_LENGTH: usize = OVERHEAD + MAX_LEN;

const RESERVED: u64 = 38;

// No piece needs as many calls.
const MOST_CALLS: usize = 100;

// An endpoint, and the number of the answers so far.
#[derive(Drop)]
pub(crate) struct Tally {
    pub(crate) endpoint: Endpoint,
    pub(crate) sum: u64,
}

// The number with an answer more: the place of each counts.
fn counted(sum: u64, answer: u64) -> u64 {
    ((sum << 5) ^ (sum >> 59)).wrapping_add(answer)
}

// A byte of a lent buffer, as it counts: the compiler may leave out what nobody reads.
fn wide(byte: u8) -> u64 {
    byte as u64
}

pub(crate) fn fresh(sum: u64) -> Tally {
    let endpoint = open(RESERVED).endpoint;
    Tally { endpoint, sum }
}

// So many submits, with 16 bytes of data and a response wanted.
pub(crate) fn submit_some(tally: Tally, store: &mut [u8; STORE_LENGTH], count: u64) -> Tally {
    let mut tally = tally;
    for _ in 0..count {
        tally = submit_one(tally, store);
    }
    tally
}

fn submit_one(tally: Tally, store: &mut [u8; STORE_LENGTH]) -> Tally {
    let fields = Fields {
        tc: 3,
        tid: 1,
        sid: 0,
        iid: 1,
        cid: 1,
    };
    let done = submit(tally.endpoint, store, fields, b"0123456789abcdef", true, 0);
    Tally {
        endpoint: done.endpoint,
        sum: counted(tally.sum, submit_number(done.answer)),
    }
}

fn submit_number(answer: SubmitAnswer) -> u64 {
    answer.map_or_else(refusal_number, |id| id.0 as u64)
}

fn refusal_number(refusal: Refusal) -> u64 {
    refusal.number() as u64
}

// A poll with an output of its least length.
pub(crate) fn poll_once(
    e: Endpoint,
    store: &mut [u8; STORE_LENGTH],
    output: &mut [u8; OUTPUT_LENGTH],
    clock: u64,
) -> Polled {
    poll(e, store, output, clock)
}

// A poll, with its answer counted.
pub(crate) fn poll_at(
    tally: Tally,
    store: &mut [u8; STORE_LENGTH],
    output: &mut [u8; OUTPUT_LENGTH],
    clock: u64,
) -> Tally {
    let done = poll_once(tally.endpoint, store, output, clock);
    Tally {
        endpoint: done.endpoint,
        sum: with_poll(tally.sum, done.answer, output),
    }
}

// The number with the answer of a poll more; of a frame that is sent, its SEQ and the bytes where its checksum stands count too.
pub(crate) fn with_poll(sum: u64, answer: PollAnswer, output: &[u8; OUTPUT_LENGTH]) -> u64 {
    let seen = wide(output[5]) ^ (wide(output[32]) << 8) ^ (wide(output[33]) << 16);
    counted(sum, poll_number(answer) ^ (seen << 32))
}

fn poll_number(answer: PollAnswer) -> u64 {
    match answer {
        Ok(PollOutcome::Sent(len)) => len as u64,
        Ok(PollOutcome::Ended(ending)) => ending.id.0 as u64,
        Ok(PollOutcome::Quiet(time)) => time.unwrap_or(0),
        Err(refusal) => refusal_number(refusal),
    }
}

// An ACK for the first frame arrives.
pub(crate) fn acknowledge(tally: Tally, store: &mut [u8; STORE_LENGTH]) -> Tally {
    let mut reply = [0; REPLY_LENGTH];
    let mut buffer = [0; MAX_DATA];
    let ack = b"\xAA\x55\x40\x00\x00\x00\x5C\xEA\xFF\xFF";
    receive_one(tally, store, ack, &mut reply, &mut buffer).tally
}

// A piece is handed in, its untaken rest again, until *more*.
pub(crate) fn hand_in(
    tally: Tally,
    store: &mut [u8; STORE_LENGTH],
    piece: &[u8],
    reply: &mut [u8; REPLY_LENGTH],
    buffer: &mut [u8; MAX_DATA],
) -> Tally {
    let mut tally = tally;
    let mut rest = piece;
    for _ in 0..MOST_CALLS {
        let done = receive_one(tally, store, rest, reply, buffer);
        tally = done.tally;
        let Some(untaken) = done.taken.and_then(|taken| rest.get(taken..)) else {
            return tally;
        };
        rest = untaken;
    }
    tally
}

// What came of a receive: the bytes taken with an item, none where it was *more* or refused.
#[derive(Drop)]
struct Took {
    tally: Tally,
    taken: Option<usize>,
}

fn receive_one(
    tally: Tally,
    store: &mut [u8; STORE_LENGTH],
    bytes: &[u8],
    reply: &mut [u8; REPLY_LENGTH],
    buffer: &mut [u8; MAX_DATA],
) -> Took {
    let done = receive(tally.endpoint, store, bytes, reply, buffer, 0);
    let endpoint = done.endpoint;
    let seen = wide(reply[6]) ^ (wide(buffer[0]) << 8);
    let Ok(receipt) = done.answer else {
        return Took {
            tally: Tally { endpoint, ..tally },
            taken: None,
        };
    };
    let sum = counted(tally.sum, receipt_number(receipt) ^ (seen << 48));
    Took {
        tally: Tally { endpoint, sum },
        taken: receipt.item.map(|_| receipt.taken),
    }
}

// The bytes taken, the reply's length, a command's request ID and the length of its data, and the ID of a request that ended.
fn receipt_number(receipt: Receipt) -> u64 {
    (receipt.taken as u64)
        ^ ((receipt.replied as u64) << 8)
        ^ (word_number(receipt.word) << 16)
        ^ (ending_number(receipt.ending) << 44)
}

fn ending_number(ending: Option<Ending>) -> u64 {
    ending.map_or(0, |it| it.id.0 as u64)
}

fn word_number(word: Option<Word>) -> u64 {
    match word {
        Some(Word::Event(it) | Word::Response(it) | Word::Unmatched(it)) => {
            (it.id.0 as u64) ^ ((it.len as u64) << 16)
        }
        Some(Word::Stray | Word::Repeat | Word::NotCommand) | None => 0,
    }
}
