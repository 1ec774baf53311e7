// Sequence IDs (document 01, "the next SEQ (starts 0, after 255 comes 0)").
ghost use Rattle.std.specs.Prelude.{◌≡◌};
ghost use Rattle.link.specs.SequenceIds.{first_seq, seq_after};

use message::Seq;

// Where the count of frames starts ("starts 0").
const FIRST_SEQ: u8 = 0;

// The SEQ of a side's first frame.
// Ruled out: a count that starts at 1, and one that goes on from an earlier endpoint's.
pub fn first() -> Seq
    ensures { result.0 ≡ first_seq }
{
    Seq(FIRST_SEQ)
}

// The SEQ of the frame after one with this SEQ, at each first transmission.
// Ruled out: a counter that stays at 255, and one that comes back to 0 earlier.
pub fn next(seq: Seq) -> Seq
    ensures { result.0 ≡ seq_after seq.0 }
{
    Seq(seq.0.wrapping_add(1))
}
