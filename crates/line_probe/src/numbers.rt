// The line's answer as numbers.
ghost use Rattle.std.specs.Prelude.{◌≡◌};
ghost use Rattle.message.specs.Promises.{item_of};
ghost use Rattle.line.specs.Receiving.{item as one};
ghost use Rattle.line.specs.Promises.{answer_of};
ghost use Rattle.line_probe.specs.Numbers.{numbers, numbers_of};
ghost use Rattle.line_probe.specs.Code.{numbers_in};

use line::Received;
use message::Item;

// What the probe answers.
// Stays: numbers, since the C function `fizrahum_probe_receive` answers and sets them.
#[derive(Default, Drop)]
pub(crate) struct Numbers {
    pub rule: u8,
    pub kind: u8,
    pub seq: u8,
    pub len: usize,
    pub taken: usize,
    pub held: usize,
}

// The answer to an array that is no line's.
pub(crate) fn refused() -> Numbers
    ensures { numbers_in result ≡ numbers 1 0 0 0 0 0 }
{
    of_no_message(1, 0, 0)
}

pub(crate) fn of_received(received: Received) -> Numbers
    ensures { numbers_in result ≡ numbers_of (answer_of received.answer) received.taken received.count }
{
    let answer = received.answer;
    match answer {
        None => of_no_message(0, received.taken, received.count),
        Some(item) => of_item(item, received.taken, received.count),
    }
}

fn of_item(item: Item, taken: usize, held: usize) -> Numbers
    ensures { numbers_in result ≡ numbers_of (one (item_of item)) taken held }
{
    match item {
        Item::Message { kind, seq, len } => Numbers {
            rule: item.rule(),
            kind,
            seq: seq.0,
            len,
            taken,
            held,
        },
        _ => of_no_message(item.rule(), taken, held),
    }
}

fn of_no_message(rule: u8, taken: usize, held: usize) -> Numbers
    ensures { numbers_in result ≡ numbers rule 0 0 0 taken held }
{
    Numbers {
        rule,
        taken,
        held,
        ..Numbers::default()
    }
}
