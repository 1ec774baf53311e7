// The functions that C programs call, with numbers and buffers only. `include/fizrahum.h` declares them.
// A `&[u8]` and a `&[u16]` are passed as a pointer and then a length, a `&mut u8` and a `&mut usize` as a pointer.
#![tactic(auto)]

mod numbers; // the answers of the writer, the reader and the audit as numbers

ghost use Rattle.std.specs.Prelude.{◌≡◌, length};
ghost use Rattle.checksum.specs.Checksum.{checksum_of};
ghost use Rattle.message.specs.Items.{scan};
ghost use Rattle.audit.specs.Audit.{audit};
ghost use Rattle.c_api.specs.Numbers.{WroteNumber, numbers, numbers_of, position_in};

use message::Seq;

// The checksum of the bytes. With length 0 the pointer is not read, and may be null.
#[unsafe(no_mangle)]
pub extern "C" fn fizrahum_checksum(bytes: &[u8]) -> u16
    ensures { result ≡ checksum_of bytes.now }
{
    checksum::checksum(bytes)
}

// Places a message at a place of the buffer. Answers its length, at least 10, or refusal 7 or 6, which leaves the buffer.
// Ruled out: an answer of 6 for a forbidden header, and a length with a buffer that was left as it was.
#[unsafe(no_mangle)]
pub extern "C" fn fizrahum_write(
    buffer: &mut [u8],
    place: usize,
    kind: u8,
    seq: u8,
    payload: &[u8],
) -> usize
    ensures { WroteNumber result place kind seq payload.now buffer.old buffer.new }
{
    let written = message_writer::write(buffer, place, kind, Seq(seq), payload);
    numbers::of_written(written)
}

// The first item of the bytes. Answers the number of the rule that decided it, or 0, and sets all six numbers.
#[tactic(auto, using(crate::proofs::Told::place_within))]
#[unsafe(no_mangle)]
pub extern "C" fn fizrahum_read(
    bytes: &[u8],
    kind: &mut u8,
    seq: &mut u8,
    payload: &mut usize,
    len: &mut usize,
    dropped: &mut usize,
    removed: &mut usize,
) -> u8
    ensures { numbers result kind.new seq.new payload.new len.new dropped.new
        removed.new ≡ numbers_of (scan bytes.now) }
{
    let answer = numbers::of_reading(message_reader::read(bytes));
    *kind = answer.kind;
    *seq = answer.seq;
    *payload = answer.payload;
    *len = answer.len;
    *dropped = answer.dropped;
    *removed = answer.removed;
    answer.rule
}

// Audits a row of IDs, beside a number R. Answers the position found, or the number of IDs where there is none. The row is only read.
// Ruled out: an answer of 0 where there is none, which is the first position's, and an audit that takes R for 0.
#[unsafe(no_mangle)]
pub extern "C" fn fizrahum_audit(ids: &[u16], reserved: u64) -> usize
    ensures { result ≡ position_in (length ids.now) (audit reserved ids.now) }
{
    let found = audit::audit_ids(ids, reserved);
    numbers::of_finding(found, ids.len())
}
