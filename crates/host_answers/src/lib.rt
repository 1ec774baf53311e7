// What the calls answer (document 01, "The ledger"; "Refusal numbers"), each beside the endpoint that is handed back.
#![tactic(auto)]

mod accepted; // what an accepted call works with

ghost use Rattle.std.specs.Prelude.{◌≡◌, Err};

pub use accepted::Accepted;
use command::RequestId;
use endpoint::Endpoint;
use ledger::{Ending, Refusal, Word};
use message::Item;

// What a call answers, a value or the refusal, beside the endpoint that it hands back.
#[derive(Drop)]
pub struct Answered<T> {
    pub answer: Result<T, Refusal>,
    pub endpoint: Endpoint,
}

impl<T> Answered<T> {
    // A refused call's: the endpoint as it was handed in.
    // Ruled out: another endpoint than the one handed in, and another refusal.
    pub fn refused(endpoint: Endpoint, refusal: Refusal) -> Self
        ensures { result ≡ record { answer = Err refusal; endpoint = endpoint } }
    {
        Answered {
            answer: Err(refusal),
            endpoint,
        }
    }
}

// Open: that it is done, or the refusal.
pub type OpenAnswer = Result<(), Refusal>;

pub type Opened = Answered<()>;

// Submit: the request ID, or the refusal.
pub type SubmitAnswer = Result<RequestId, Refusal>;

pub type Submitted = Answered<RequestId>;

// What an accepted receive answers: the item, or `None` for *more*, the word, the bytes taken, the reply's length and the ending, if any.
#[derive(Clone, Copy)]
pub struct Receipt {
    pub item: Option<Item>,
    pub word: Option<Word>,
    pub taken: usize,
    pub replied: usize,
    pub ending: Option<Ending>,
}

// Receive: the receipt, or the refusal.
pub type ReceiveAnswer = Result<Receipt, Refusal>;

pub type Received = Answered<Receipt>;

// What an accepted poll did: the length sent, an ending, or *quiet* with the milliseconds to the earliest deadline, if there is one.
#[derive(Clone, Copy)]
pub enum PollOutcome {
    Sent(usize),
    Ended(Ending),
    Quiet(Option<u64>),
}

// Poll: what it did, or the refusal.
pub type PollAnswer = Result<PollOutcome, Refusal>;

pub type Polled = Answered<PollOutcome>;
