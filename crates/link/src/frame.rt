// The frame in flight (document 01, "The ledger", **Poll** 2 and 3): how often it went out, when it is due, what an ACK and a NAK
// mean to it. Clocks are 64-bit milliseconds, and sums of them are of whole numbers.
ghost use Rattle.std.specs.Prelude.{◌≡◌, ◌<◌, ◌≤◌};
ghost use Rattle.link.specs.Frames.{max_transmissions, first_sent, with_mark, acknowledged_by, due, may_go_again, sent_again, left};
ghost use Rattle.link.specs.Promises.{frame_of};

use message::Seq;

// How often a frame goes out at most ("Due with fewer than 3 transmissions: sent again").
pub const MAX_TRANSMISSIONS: u8 = 3;

// How long after a transmission the next is due, in milliseconds ("clock minus last sent is at least 1,000 ms").
pub const RESEND_TIME: u64 = 1000;

// A frame that was sent and not acknowledged: its SEQ, how often it went out, the clock's reading when it last did, and whether a NAK
// has come since.
#[derive(Clone, Copy)]
pub struct Frame {
    pub seq: Seq,
    pub transmissions: u8,
    pub sent: u64,
    pub marked: bool,
}

impl Frame {
    // A frame that goes out for the first time.
    // Ruled out: a first transmission that counts as none, and a frame that is due at once.
    pub fn first(seq: Seq, clock: u64) -> Frame
        ensures { frame_of result ≡ first_sent seq.0 clock }
    {
        Frame {
            seq,
            transmissions: 1,
            sent: clock,
            marked: false,
        }
    }

    // Whether it is due: marked, or sent 1,000 ms ago or earlier. A clock below the last transmission's makes it due only if marked.
    // Ruled out: one millisecond more to wait, and a difference that wraps where the clock is below.
    pub fn is_due(self, clock: u64) -> bool
        ensures { result ≡ due (frame_of self) clock }
    {
        self.marked || RESEND_TIME <= clock.saturating_sub(self.sent)
    }

    // Whether it may be sent again when it is due; where not, it is given up.
    // Ruled out: a fourth transmission, and giving up after the second.
    pub fn may_go_again(self) -> bool
        ensures { result ≡ may_go_again (frame_of self) }
    {
        self.transmissions < MAX_TRANSMISSIONS
    }

    // The frame when it is sent again: the same SEQ, one transmission more, the mark cleared. For the crates above, where
    // `may_go_again` has said yes.
    // Ruled out: a count that starts anew after a NAK, and a mark that stays.
    pub fn again(mut self, clock: u64) -> Frame
        requires { self.transmissions < max_transmissions }
        ensures { frame_of result ≡ sent_again (frame_of self) clock }
    {
        self.transmissions += 1;
        self.sent = clock;
        self.marked = false;
        self
    }

    // The frame after a NAK. Its count and its time stay.
    // Ruled out: a NAK that restarts the count of transmissions, and one that counts as a transmission.
    pub fn with_mark(mut self) -> Frame
        ensures { frame_of result ≡ with_mark (frame_of self) }
    {
        self.marked = true;
        self
    }

    // Whether an ACK with this SEQ is for it.
    // Ruled out: the ACK of an older frame, and of a later one.
    pub fn is_acknowledged_by(self, seq: Seq) -> bool
        ensures { result ≡ acknowledged_by (frame_of self) seq.0 }
    {
        self.seq == seq
    }

    // The milliseconds until it is due without a mark, 0 where it is. For the crates above, which have refused a time later than the
    // clock: it is their malformed endpoint. (From an earlier clock on, the time left may not fit 64 bits.)
    // Ruled out: a deadline that wraps near the clock's end, and the time since the last transmission for the time that is left.
    pub fn left(self, clock: u64) -> u64
        requires { self.sent ≤ clock }
        ensures { result ≡ left (frame_of self) clock }
    {
        RESEND_TIME.saturating_sub(clock - self.sent)
    }
}
