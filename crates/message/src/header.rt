// The fixed parts of a message, and which headers are allowed (document 01, "Bytes on the line").
ghost use Rattle.std.specs.Prelude.{◌≡◌, ◌^◌, ◌<◌};
ghost use Rattle.message.specs.Bytes.{total, allowed, writable};
ghost use Rattle.message.specs.Items.{stands};

use crate::Seq;

// SYN: the two bytes that every message opens with.
pub const SYN: [u8; 2] = *b"\xAA\x55";

pub const SYN_LENGTH: usize = 2;

// The values of TYPE.
// Stays: a number and no enum, since `message_writer::write`, `message_reader::payload`, `host_deliveries::put_reply` and
// `decisions::judge` take any TYPE, and may ask no more.
pub const NAK: u8 = 0x04;

pub const ACK: u8 = 0x40;

pub const DATA_SEQ: u8 = 0x80;

pub const DATA_NSQ: u8 = 0x00;

// The upper end of LEN, in bytes.
pub const MAX_LEN: usize = 256;

// Where TYPE, LEN, SEQ and the header's checksum stand in a message.
pub const TYPE_PLACE: usize = 2;

pub const LEN_PLACE: usize = 3;

pub const SEQ_PLACE: usize = 5;

pub const CHECKSUM_PLACE: usize = 6;

// TYPE, LEN and SEQ, in bytes.
pub const FIELDS_LENGTH: usize = 4;

// SYN, those fields and their checksum, in bytes.
pub const HEADER_LENGTH: usize = 8;

// A message beside its payload, in bytes: the header and the payload's checksum, which is there also when LEN is 0.
pub const OVERHEAD: usize = 10;

// Whether SYN stands in front, or what may become one: its first byte at the end. For the reader, which drops bytes until it does.
// Ruled out: no to a lone first byte at the end, and yes to SYN with its two bytes exchanged.
#[tactic(auto, unfolding(crate::specs::Items::stands))]
pub fn syn_stands(rest: &[u8]) -> bool
    ensures { result ≡ stands rest.now }
{
    match rest {
        [first, ..] if *first != SYN[0] => false,
        [_, second, ..] => *second == SYN[1],
        [_] => true, // a lone first byte
        [] => false,
    }
}

// The bytes of a message with this LEN. Asks for a LEN of 16 bits, so that the sum fits; the callers have read one.
pub fn total_length(len: usize) -> usize
    requires { len < 2 ^ 16 }
    ensures { result ≡ total len }
{
    OVERHEAD + len
}

// Whether a header with this TYPE and LEN is allowed.
#[tactic(auto, unfolding(crate::specs::Bytes::allowed))]
pub fn is_allowed(kind: u8, len: usize) -> bool
    ensures { result ≡ allowed kind len }
{
    match kind {
        ACK | NAK => len == 0,
        DATA_SEQ | DATA_NSQ => 1 <= len && len <= MAX_LEN,
        _ => false,
    }
}

// Whether a message with this header may be written: it is allowed, and a NAK has SEQ 0.
#[tactic(auto, unfolding(crate::specs::Bytes::writable))]
pub fn is_writable(kind: u8, len: usize, seq: Seq) -> bool
    ensures { result ≡ writable kind len seq.0 }
{
    is_allowed(kind, len) && (kind != NAK || seq.0 == 0)
}
