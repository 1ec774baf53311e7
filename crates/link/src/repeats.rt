// The repeat test (document 01, **Receive**: "If its SEQ equals the controller's last SEQ, item *repeat* and nothing more; otherwise
// that becomes the last SEQ"), for frames of either side.
ghost use Rattle.std.specs.Prelude.{◌≡◌};
ghost use Rattle.link.specs.Repeats.{none_seen, is_repeat, seen_after};
ghost use Rattle.link.specs.Promises.{seen_of};

use message::Seq;

// What is remembered of the other side's frames: the last SEQ, none at first.
#[derive(Clone, Copy)]
pub struct Seen {
    pub last: Option<Seq>,
}

impl Seen {
    // What is remembered at first.
    // Ruled out: SEQ 0 taken as seen, so that the first frame is a repeat, and any other SEQ.
    pub fn none() -> Seen
        ensures { seen_of result ≡ none_seen }
    {
        Seen { last: None }
    }

    // Whether a frame with this SEQ is a repeat.
    // Ruled out: a repeat when nothing was seen, and a SEQ below the last taken for one.
    pub fn is_repeat(self, seq: Seq) -> bool
        ensures { result ≡ is_repeat (seen_of self) seq.0 }
    {
        self.last == Some(seq)
    }

    // What is remembered after a frame with this SEQ.
    // Ruled out: the first SEQ kept for good, and nothing remembered.
    pub fn after(self, seq: Seq) -> Seen
        ensures { seen_of result ≡ seen_after (seen_of self) seq.0 }
    {
        Seen { last: Some(seq) }
    }
}
