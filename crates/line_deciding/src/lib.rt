// Which item held bytes and new ones decide, and what is held then (document 01, "How bytes become items"). A byte is moved only
// where it is held: into the array, or to its front.
#![tactic(auto)]

mod found; // an item, and what is held behind it

ghost use Rattle.std.specs.Prelude.{◌≡◌, [], ◌≤◌, length, take};
ghost use Rattle.message.specs.Items.{undecided, scan};
ghost use Rattle.line.specs.Receiving.{held_max};
ghost use Rattle.line.specs.Code.{breaks};
ghost use Rattle.line.specs.Promises.{Decides};

use crate::found::Found;
use line::store::put_at;
use line::{Decision, HELD_MAX};
use line_joining::{all_held, join};
use message::header::SYN;
use message_reader::read;

// The item that the array's first count bytes and the new ones decide, with all that a call gives. For the crates above, which
// lend HELD_MAX bytes and have refused a larger count: it is their malformed endpoint.
// Ruled out: a damaged message that is removed whole, and a payload that begins where SYN stood.
// Stays: the clause `length array.old ≡ held_max` may not ask more: any slice of that length may be lent. Inside it becomes an array.
// Stays: the clause `count ≤ held_max`, here and in `found`: the C function `fizrahum_probe_receive` lends array and count.
pub fn decide(array: &mut [u8], count: usize, new: &[u8]) -> Decision
    requires { (length array.old ≡ held_max) × (count ≤ held_max) }
    ensures decides { Decides result (take count array.old) new.now array.new }
    ensures long { length array.new ≡ held_max }
{
    let reading = read(&array[..count]);
    let Some(first) = reading.first else {
        let array = array.as_mut_array().unwrap();
        return without_dropped(array, reading.dropped, count, new);
    };
    let found = Found {
        dropped: reading.dropped,
        first,
    };
    found.in_array(count)
}

// No item of the held bytes: those that are dropped go, and what is left may begin a message.
#[tactic(auto, using(line::proofs::Dropped::drops, line::proofs::Dropped::all_dropped, line::proofs::Dropped::waits, line::proofs::Dropped::receives, line::proofs::Moving::length_part, line::proofs::Start::decides_same, line::proofs::Start::broken))]
fn without_dropped(array: &mut [u8; HELD_MAX], dropped: usize, count: usize, new: &[u8]) -> Decision
    requires { (count ≤ held_max) × (scan (take count array.old) ≡ undecided dropped) }
    ensures { Decides result (take count array.old) new.now array.new }
{
    let kept = count - dropped;
    if kept == 0 || breaks_syn(kept, new) {
        return in_new(array, new);
    }
    join(array, dropped, kept, new)
}

// Whether a lone first byte of SYN is held and the next byte is not the second.
fn breaks_syn(kept: usize, new: &[u8]) -> bool
    ensures { result ≡ breaks kept new.now }
{
    kept == 1 && new.first().is_some_and(|next| *next != SYN[1])
}

// Nothing is held: an item is read where the new bytes stand.
#[tactic(auto, using(message::proofs::Buffer::tail, line::proofs::Gives::dropped_in, line::proofs::Gives::undecided_left, line::proofs::Gives::gives_more, line::proofs::Gives::front_placed))]
fn in_new(array: &mut [u8; HELD_MAX], new: &[u8]) -> Decision
    ensures { Decides result [] new.now array.new }
{
    let reading = read(new);
    let Some(first) = reading.first else {
        let rest = &new[reading.dropped..];
        put_at(array, 0, rest);
        return all_held(rest.len(), new.len());
    };
    let found = Found {
        dropped: reading.dropped,
        first,
    };
    found.in_new(array, new)
}
