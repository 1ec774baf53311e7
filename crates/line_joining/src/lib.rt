// A message of which a part is held (document 01, "How bytes become items": "Take the held bytes followed by the new ones"): new
// bytes are put behind that part. The bytes of the array are moved once, when it is known whether SYN stays.
#![tactic(auto)]

ghost use Rattle.std.specs.Prelude.{◌≡◌, false, ◌++◌, ◌+◌, ◌-◌, ◌^◌, ◌≤◌, ◌<◌, length, take, drop, None, Some};
ghost use Rattle.message.specs.Bytes.{header_length, total, syn};
ghost use Rattle.message.specs.Items.{undecided, len_in, scan};
ghost use Rattle.message.specs.Writing.{placed};
ghost use Rattle.line.specs.Receiving.{held_max};
ghost use Rattle.line.specs.Code.{breaks};
ghost use Rattle.line.specs.Promises.{bytes_of, Decides};

use line::store::{move_to_front, put_at};
use line::{Decision, HELD_MAX, Part, Place};
use message::header::{HEADER_LENGTH, SYN_LENGTH, total_length};
use message::{Item, Seq};
use message_reader::{len_in, payload_is_sound, read};

// Where TYPE and SEQ stand in a message whose SYN is gone.
const TYPE_BEHIND_SYN: usize = 0;

const SEQ_BEHIND_SYN: usize = 3;

// The bytes of a header whose SYN is gone: where the payload begins.
const HEADER_BEHIND_SYN: usize = 6;

// The item that kept bytes of the array, from a place on, and the new ones decide. SYN stands in front of them, or its first byte.
// For the crate above, which has dropped what stands before SYN and tested that the next byte does not break it.
// Ruled out: a message that is whole and waits for one byte more, and a damaged one behind which the search goes on.
// Stays: the clauses of the array's length and the part may not ask more: any slice of that length may be lent, and any two numbers within it
// handed in. Inside, an array and a `Part` hold them.
// Stays: array, held and new side by side: of a struct with the lent array each contract would say `self.exit.array.now` for `array.new`.
pub fn join(array: &mut [u8], from: usize, kept: usize, new: &[u8]) -> Decision
    requires { (length array.old ≡ held_max) × (from + kept ≤ held_max) × (0 < kept)
        × (scan (take kept (drop from array.old)) ≡ undecided 0) × (breaks kept new.now ≡ false) }
    ensures { Decides result (take kept (drop from array.old)) new.now array.new }
{
    let array = array.as_mut_array().unwrap();
    let held = Part { from, count: kept };
    if kept < HEADER_LENGTH {
        return after_start(array, held, new);
    }
    let len = len_in(&array[from..]);
    after_header(array, held, len, new)
}

// The start of a header is held.
#[tactic(auto, using(line::proofs::Start::start_waits, line::proofs::Start::header_waits))]
fn after_start(array: &mut [u8; HELD_MAX], held: Part, new: &[u8]) -> Decision
    requires { (0 < held.count) × (held.count < header_length) × (scan (bytes_of held array.old) ≡ undecided 0)
        × (breaks held.count new.now ≡ false) }
    ensures { Decides result (bytes_of held array.old) new.now array.new }
{
    let missing = HEADER_LENGTH - held.count;
    if new.len() < missing {
        return all_wait(array, held, new);
    }
    let header = join_header(&array[held.from..held.from + held.count], &new[..missing]);
    let Some(first) = read(&header).first else {
        let len = len_in(&header);
        return after_header(array, held, len, new);
    };
    header_item(array, held, first.item, &new[..missing])
}

// The bytes of a header in two parts.
fn join_header(first: &[u8], second: &[u8]) -> [u8; HEADER_LENGTH]
    requires { length first.now + length second.now ≡ header_length }
    ensures { result ≡ first.now ++ second.now }
{
    let mut header = [0; HEADER_LENGTH];
    byte_slices::copy(first, &mut header);
    let at = first.len();
    byte_slices::copy(second, &mut header[at..]);
    header
}

// An item that the header's last bytes decide.
fn header_item(array: &mut [u8; HELD_MAX], held: Part, item: Item, bytes: &[u8]) -> Decision
    requires { held.count + length bytes.now ≡ header_length }
    ensures { (result.answer ≡ Some item) × (result.taken ≡ length bytes.now) × (result.start ≡ 0) × (result.count ≡ 6)
        × (array.new ≡ placed 0 (drop (length syn) (bytes_of held array.old ++ bytes.now))
        array.old) }
{
    append_behind_syn(array, held, bytes);
    Decision {
        answer: Some(item),
        taken: bytes.len(),
        start: 0,
        count: HEADER_BEHIND_SYN,
        payload: Place::Held(0),
    }
}

// A header that is sound and allowed stands whole in the held bytes and the new ones.
#[tactic(auto, using(line::proofs::Whole::waits_for, line::proofs::Whole::all_waits))]
fn after_header(array: &mut [u8; HELD_MAX], held: Part, len: usize, new: &[u8]) -> Decision
    requires { (header_length ≤ held.count + length new.now)
        × (scan (bytes_of held array.old ++ take (header_length - held.count) new.now) ≡ undecided 0)
        × (len ≡ len_in (bytes_of held array.old ++ take (header_length - held.count) new.now)) × (len < 2 ^ 16) }
    ensures { Decides result (bytes_of held array.old) new.now array.new }
{
    let need = total_length(len) - held.count;
    if new.len() < need {
        return all_wait(array, held, new);
    }
    whole_message(array, held, len, need, new)
}

// The message is whole with `need` new bytes.
#[tactic(auto, using(line::proofs::Whole::waits_for))]
fn whole_message(
    array: &mut [u8; HELD_MAX],
    held: Part,
    len: usize,
    need: usize,
    new: &[u8],
) -> Decision
    requires { (header_length ≤ held.count + length new.now)
        × (scan (bytes_of held array.old ++ take (header_length - held.count) new.now) ≡ undecided 0)
        × (len ≡ len_in (bytes_of held array.old ++ take (header_length - held.count) new.now))
        × (held.count + need ≡ total len) × (need ≤ length new.now) }
    ensures { Decides result (bytes_of held array.old) new.now array.new }
{
    append_behind_syn(array, held, &new[..need]);
    if payload_is_sound(&array[HEADER_BEHIND_SYN..], len) {
        let kind = array[TYPE_BEHIND_SYN];
        let seq = Seq(array[SEQ_BEHIND_SYN]);
        return Decision {
            answer: Some(Item::Message { kind, seq, len }),
            taken: need,
            start: 0,
            count: 0,
            payload: Place::Held(HEADER_BEHIND_SYN),
        };
    }
    let whole = held.count + need;
    // the search goes on behind SYN, and not behind the message
    Decision {
        answer: Some(Item::DamagedPayload),
        taken: need,
        start: 0,
        count: whole - SYN_LENGTH,
        payload: Place::Held(0),
    }
}

// No item: the held bytes go to the front, and all new ones behind them.
fn all_wait(array: &mut [u8; HELD_MAX], held: Part, new: &[u8]) -> Decision
    requires { (held.count + length new.now ≤ held_max)
        × (scan (bytes_of held array.old ++ new.now) ≡ undecided 0) }
    ensures { Decides result (bytes_of held array.old) new.now array.new }
{
    move_to_front(array, held.from, held.count);
    put_at(array, held.count, new);
    all_held(held.count + new.len(), new.len())
}

// No item: all bytes are taken, and count of them held at the front. For the callers here and in the crate above.
// Ruled out: an answer that names an item, and bytes to be held that begin behind the front.
pub fn all_held(count: usize, taken: usize) -> Decision
    ensures { (result.answer ≡ None) × (result.taken ≡ taken) × (result.start ≡ 0) × (result.count ≡ count) }
{
    Decision {
        answer: None,
        taken,
        start: 0,
        count,
        payload: Place::Held(0),
    }
}

// The held bytes and those behind them without SYN, which goes with every item, at the front. The longest message fits so.
fn append_behind_syn(array: &mut [u8; HELD_MAX], held: Part, bytes: &[u8])
    requires { (length syn ≤ held.count + length bytes.now)
        × (held.count + length bytes.now ≤ held_max + length syn) }
    ensures { array.new
        ≡ placed 0 (drop (length syn) (bytes_of held array.old ++ bytes.now)) array.old }
{
    if held.count < SYN_LENGTH {
        put_at(array, 0, &bytes[SYN_LENGTH - held.count..]);
        return;
    }
    let rest = held.count - SYN_LENGTH;
    move_to_front(array, held.from + SYN_LENGTH, rest);
    put_at(array, rest, bytes);
}
