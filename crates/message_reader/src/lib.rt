// The message reader (document 01, "How bytes become items"): the first item of a lent slice. It holds nothing.
#![tactic(auto)]

ghost use Rattle.std.specs.Prelude.{◌≡◌, ◌+◌, ◌≤◌, ◌<◌, ◌^◌, ℕ, eqb, length, get_or, take};
ghost use Rattle.checksum.specs.Checksum.{checksum_of};
ghost use Rattle.message.specs.Bytes.{from_le16, header_length};
ghost use Rattle.message.specs.Items.{dropped, len_in, fields_in, header_checksum_in, decided, rules, scan, part_with};
ghost use Rattle.message.specs.Promises.{item_of, scan_of, scan_with};

use byte_slices::part;
use message::header::{
    CHECKSUM_PLACE, HEADER_LENGTH, LEN_PLACE, SEQ_PLACE, SYN_LENGTH, TYPE_PLACE, is_allowed,
    syn_stands, total_length,
};
use message::{FirstItem, Item, Reading, Seq};

// The first item of the bytes, by the six rules.
#[tactic(auto, using(message::proofs::Buffer::tail, message::proofs::Dropping::dropped_within), unfolding(message::specs::Items::scan))]
pub fn read(bytes: &[u8]) -> Reading
    ensures { scan_of result ≡ scan bytes.now }
{
    let dropped = count_dropped(bytes);
    let first = apply_rules(&bytes[dropped..]);
    Reading { dropped, first }
}

// The payload of what `read` found in these bytes, as a part of them and no copy: empty for all but a message.
// Ruled out: a part that begins within the header, and the payload of a damaged message.
pub fn payload(bytes: &[u8], reading: Reading) -> &[u8]
    ensures { result.now ≡ part_with (scan_of reading) bytes.now }
{
    let dropped = reading.dropped;
    let Some(
        FirstItem {
            item: Item::Message { len, .. },
            ..
        },
    ) = reading.first
    else {
        return &bytes[..0]; // of no message
    };
    part(bytes, dropped.saturating_add(HEADER_LENGTH), len)
}

// How many bytes go until SYN stands in front.
fn count_dropped(bytes: &[u8]) -> usize
    ensures { result ≡ dropped bytes.now }
{
    let stops = (0..bytes.len()).find(|i| syn_stands(&bytes[*i..]));
    stops.unwrap_or(bytes.len())
}

// Rules 1 to 6, on what is left after dropping.
#[tactic(auto, using(message::proofs::Buffer::tail), unfolding(message::specs::Items::rules))]
fn apply_rules(rest: &[u8]) -> Option<FirstItem>
    ensures { (dropped : ℕ) → scan_with dropped result ≡ rules dropped rest.now }
{
    if rest.len() < HEADER_LENGTH {
        return None;
    }
    let sound = header_is_sound(rest);
    let kind = rest[TYPE_PLACE];
    let len = len_in(rest);
    let fine = is_allowed(kind, len);
    if !sound {
        return found(Item::DamagedHeader, SYN_LENGTH);
    }
    if !fine {
        return found(Item::Forbidden, SYN_LENGTH);
    }
    let total = total_length(len);
    if rest.len() < total {
        return None;
    }
    if !payload_is_sound(&rest[HEADER_LENGTH..], len) {
        // the search goes on behind SYN, and not behind the message
        return found(Item::DamagedPayload, SYN_LENGTH);
    }
    let seq = Seq(rest[SEQ_PLACE]);
    found(Item::Message { kind, seq, len }, total)
}

// An item with the bytes removed with it.
fn found(item: Item, removed: usize) -> Option<FirstItem>
    ensures { (dropped : ℕ) → scan_with dropped result ≡ decided (item_of item) dropped removed }
{
    Some(FirstItem { item, removed })
}

// Whether the header's checksum is right.
fn header_is_sound(rest: &[u8]) -> bool
    requires { header_length ≤ length rest.now }
    ensures { result ≡ eqb (header_checksum_in rest.now) (checksum_of (fields_in rest.now)) }
{
    le16_at(rest, CHECKSUM_PLACE) == checksum::checksum(&rest[SYN_LENGTH..CHECKSUM_PLACE])
}

// The LEN of the header that stands in front. Asks for a whole header, which the callers here and in the crates above have.
pub fn len_in(rest: &[u8]) -> usize
    requires { header_length ≤ length rest.now }
    ensures { (result ≡ len_in rest.now) × (result < 2 ^ 16) }
{
    le16_at(rest, LEN_PLACE) as usize
}

// Whether the checksum behind a payload of len bytes is right, where these bytes stand behind a header. Asks for all of them,
// which the callers here and in the crates above have.
pub fn payload_is_sound(body: &[u8], len: usize) -> bool
    requires { len + 2 ≤ length body.now }
    ensures { result ≡ eqb (from_le16 (get_or body.now len 0) (get_or body.now (len + 1) 0)) (checksum_of (take len body.now)) }
{
    le16_at(body, len) == checksum::checksum(&body[..len])
}

// The 16-bit number at a place.
fn le16_at(bytes: &[u8], at: usize) -> u16
    requires { at + 1 < length bytes.now }
    ensures { result ≡ from_le16 (get_or bytes.now at 0) (get_or bytes.now (at + 1) 0) }
{
    u16::from_le_bytes([bytes[at], bytes[at + 1]])
}
