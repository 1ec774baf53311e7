// The answers of the writer, the reader and the audit as numbers.
ghost use Rattle.std.specs.Prelude.{◌≡◌, ◌^◌, ◌<◌};
ghost use Rattle.message.specs.Items.{decided};
ghost use Rattle.message.specs.Promises.{answer_of, item_of, scan_of};
ghost use Rattle.c_api.specs.Numbers.{number_of, numbers, numbers_of, place_of, position_in};
ghost use Rattle.c_api.specs.Code.{numbers_in};

use message::header::HEADER_LENGTH;
use message::{Item, Reading, WriteError};

// What `fizrahum_read` answers.
// Stays: numbers, since the C function `fizrahum_read` answers and sets them.
#[derive(Default, Drop)]
pub(crate) struct Numbers {
    pub rule: u8,
    pub kind: u8,
    pub seq: u8,
    pub payload: usize,
    pub len: usize,
    pub dropped: usize,
    pub removed: usize,
}

// The length, or the refusal's number.
// Stays: 7 and 6 by a match, since the edits `refusals-swapped` and `definition-refusal-as-length` of this crate exchange them here.
pub(crate) fn of_written(written: Result<usize, WriteError>) -> usize
    ensures { result ≡ number_of (answer_of written) }
{
    match written {
        Ok(n) => n,
        Err(WriteError::Forbidden) => 7,
        Err(WriteError::NoRoom) => 6,
    }
}

// The rule that decided, or 0, with the item's numbers.
pub(crate) fn of_reading(reading: Reading) -> Numbers
    requires { place_of (scan_of reading) < 2 ^ 64 }
    ensures { numbers_in result ≡ numbers_of (scan_of reading) }
{
    match reading.first {
        None => of_no_message(0, reading.dropped, 0),
        Some(first) => of_item(first.item, reading.dropped, first.removed),
    }
}

fn of_item(item: Item, dropped: usize, removed: usize) -> Numbers
    requires { place_of (decided (item_of item) dropped removed) < 2 ^ 64 }
    ensures { numbers_in result ≡ numbers_of (decided (item_of item) dropped removed) }
{
    match item {
        Item::Message { kind, seq, len } => Numbers {
            rule: item.rule(),
            kind,
            seq: seq.0,
            payload: dropped + HEADER_LENGTH,
            len,
            dropped,
            removed,
        },
        _ => of_no_message(item.rule(), dropped, removed),
    }
}

fn of_no_message(rule: u8, dropped: usize, removed: usize) -> Numbers
    ensures { numbers_in result ≡ numbers rule 0 0 0 0 dropped removed }
{
    Numbers {
        rule,
        dropped,
        removed,
        ..Numbers::default()
    }
}

// The position, or the number of IDs in the row.
pub(crate) fn of_finding(finding: Option<usize>, count: usize) -> usize
    ensures { result ≡ position_in count finding }
{
    finding.unwrap_or(count)
}
