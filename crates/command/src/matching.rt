// Which fields answer which (document 01, **Receive**: "with equal .. TC, CID, IID, and TID and SID swapped").
ghost use Rattle.std.specs.Prelude.{◌≡◌};
ghost use Rattle.command.specs.Payload.{answers};
ghost use Rattle.command.specs.Promises.{fields_of};

use crate::Fields;

impl Fields {
    // Whether a command with the other fields answers a request with these. The request ID is compared by the caller.
    // Ruled out: TID and SID compared as they stand, and a response matched by its request ID alone.
    #[tactic(auto, unfolding(crate::specs::Payload::answers))]
    pub fn is_answered_by(self, other: Fields) -> bool
        ensures { result ≡ answers (fields_of self) (fields_of other) }
    {
        let swapped = Fields {
            tid: other.sid,
            sid: other.tid,
            ..other
        };
        self == swapped
    }
}
