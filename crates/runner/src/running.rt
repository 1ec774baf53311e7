// The calls of a script, run on one endpoint. Each makes a line of its answer.
ghost use Rattle.std.specs.Prelude.{◌≤◌, length};
ghost use Rattle.script.specs.Limits.{lent_max, Within};

use crate::lent::{filled, put_poll, put_receive};
use crate::sheet::Line;
use command::Fields;
use endpoint::{Endpoint, STORE_LENGTH};
use host::{open, poll, receive, submit};
use script::calls::{Call, read_call};
use script_bytes::faults::Fault;
use transcript::answers::{put_end, put_opened, put_submitted};

// The endpoint, once the script has opened it, and its store.
#[derive(Drop)]
pub(crate) struct Session {
    endpoint: Option<Endpoint>,
    store: [u8; STORE_LENGTH],
}

impl Session {
    // Before the first call.
    pub(crate) fn new() -> Session {
        Session {
            endpoint: None,
            store: [0; STORE_LENGTH],
        }
    }

    // Runs the call on a line, and makes a line of its answer: an empty one where there is no call.
    pub(crate) fn run_line(&mut self, line: &[u8], answer: &mut Line) -> Result<(), Fault> {
        answer.clear();
        let mut bytes = filled();
        match read_call(line, &mut bytes)? {
            Some(call) => self.run_call(call.with_bytes(&bytes), answer),
            None => Ok(()),
        }
    }

    // The first call is open, and there is no second one.
    fn run_call(&mut self, call: Call<&[u8]>, answer: &mut Line) -> Result<(), Fault>
        requires { Within (λ named. length named.now) lent_max call }
    {
        match (call, self.endpoint) {
            (Call::Open { reserved }, None) => self.run_open(reserved, answer),
            (Call::Open { .. }, Some(_)) => return Err(Fault::OpenedBefore),
            (_, None) => return Err(Fault::NotOpened),
            (
                Call::Submit {
                    fields,
                    wanted,
                    clock,
                    bytes,
                },
                Some(e),
            ) => self.run_submit(e, fields, bytes, wanted, clock, answer),
            (
                Call::Receive {
                    clock,
                    reply,
                    buffer,
                    bytes,
                },
                Some(e),
            ) => self.run_receive(e, bytes, reply, buffer, clock, answer),
            (Call::Poll { clock, output }, Some(e)) => self.run_poll(e, output, clock, answer),
        }
        Ok(())
    }

    fn run_open(&mut self, reserved: u64, answer: &mut Line) {
        let done = open(reserved);
        self.endpoint = Some(done.endpoint);
        answer.clear();
        put_opened(answer, done.answer);
        put_end(answer, false);
    }

    fn run_submit(
        &mut self,
        e: Endpoint,
        fields: Fields,
        bytes: &[u8],
        wanted: bool,
        clock: u64,
        answer: &mut Line,
    ) {
        let done = submit(e, &mut self.store, fields, bytes, wanted, clock);
        self.endpoint = Some(done.endpoint);
        answer.clear();
        put_submitted(answer, done.answer);
        put_end(answer, false);
    }

    fn run_receive(
        &mut self,
        e: Endpoint,
        bytes: &[u8],
        reply: usize,
        buffer: usize,
        clock: u64,
        answer: &mut Line,
    )
        requires first { reply ≤ lent_max }
        requires second { buffer ≤ lent_max }
    {
        let mut first = filled();
        let mut second = filled();
        let reply = &mut first[..reply];
        let buffer = &mut second[..buffer];
        let done = receive(e, &mut self.store, bytes, reply, buffer, clock);
        self.endpoint = Some(done.endpoint);
        put_receive(answer, done.answer, reply, buffer);
    }

    fn run_poll(&mut self, e: Endpoint, output: usize, clock: u64, answer: &mut Line)
        requires lent { output ≤ lent_max }
    {
        let mut space = filled();
        let output = &mut space[..output];
        let done = poll(e, &mut self.store, output, clock);
        self.endpoint = Some(done.endpoint);
        put_poll(answer, done.answer, output);
    }
}
