// The parts of `client`, over submit, receive and poll: a request and its frame on the line, what arrives for it, and a request of which
// nothing is heard. Public for `client` alone. Each contract is shown from those of the calls: where one of these is weakened, this crate
// is not proved.
#![tactic(auto)]

pub mod asking; // a request, and its frame on the line
pub mod hearing; // what arrives for the first request
pub mod giving_up; // the second request, of which nothing is heard

use endpoint::Endpoint;
use host_answers::{PollAnswer, ReceiveAnswer, SubmitAnswer};

// The readings that the client brings: when it asks, when it hears an answer and asks again, and when it polls for the second request.
#[derive(Drop)]
pub struct Readings {
    pub asked: u64,
    pub heard: u64,
    pub again: u64,
    pub last: u64,
    pub over: u64,
}

// What a submit and two polls answered: the request ID, the frame sent, and *quiet*.
#[derive(Drop)]
pub struct Asked {
    pub id: SubmitAnswer,
    pub sent: PollAnswer,
    pub rests: PollAnswer,
    pub endpoint: Endpoint,
}

// What three receives answered: to the ACK, to the first piece of the response and to the second.
#[derive(Drop)]
pub struct Heard {
    pub acknowledged: ReceiveAnswer,
    pub waits: ReceiveAnswer,
    pub answered: ReceiveAnswer,
    pub endpoint: Endpoint,
}

// What five polls answered: the frame sent a second time, *quiet*, a third time, *quiet*, and the end.
#[derive(Drop)]
pub struct GivenUp {
    pub second: PollAnswer,
    pub rests: PollAnswer,
    pub third: PollAnswer,
    pub calm: PollAnswer,
    pub ended: PollAnswer,
    pub endpoint: Endpoint,
}
