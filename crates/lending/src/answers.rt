// What an answer says that is refused by a number alone.
ghost use Rattle.std.specs.Prelude.{◌≡◌};
ghost use Rattle.lent_lengths.specs.Lengths as lengths;

use host_answers::{PollOutcome, Receipt};
use lent_lengths::{data_length, frame_length, reply_length};

fn reply_of(answer: Result<Receipt, u8>) -> usize
    ensures { result ≡ lengths.reply_length answer }
{
    reply_length(answer)
}

fn data_of(answer: Result<Receipt, u8>) -> usize
    ensures { result ≡ lengths.data_length answer }
{
    data_length(answer)
}

fn frame_of(answer: Result<PollOutcome, u8>) -> usize
    ensures { result ≡ lengths.frame_length answer }
{
    frame_length(answer)
}
