// A call's item, with the bytes to be held at the front of the array (document 01, "How bytes become items": "What follows is held
// as it is").
#![tactic(auto)]

ghost use Rattle.std.specs.Prelude.{◌≡◌, ◌+◌, ◌≤◌, length, take, drop};
ghost use Rattle.line.specs.Receiving.{held_max};
ghost use Rattle.line.specs.Promises.{Receives};

use line::store::move_to_front;
use line::{Decision, HELD_MAX, Received};
use line_deciding::decide;

// The next item of the array's first count bytes and of the new ones; the bytes held then stand at the front. For the crates above,
// which have refused a count over HELD_MAX: it is their malformed endpoint.
// Ruled out: a byte taken that the item does not need, and held bytes lost when there are no new ones.
// Stays: an array and its count and no vector of fixed room, since the C function `fizrahum_probe_receive` is lent them so.
pub fn receive(array: &mut [u8; HELD_MAX], count: usize, new: &[u8]) -> Received
    requires { count ≤ held_max }
    ensures { Receives result (take count array.old) new.now array.new }
{
    receive_in(array, count, new)
}

// The same where the array is lent as a slice, such as HELD_MAX bytes of a larger one.
// Ruled out: bytes behind the first count read as held ones, and bytes to be held that stay where they stood.
// Stays: the clause `length array.old ≡ held_max` may not ask more: any slice of that length may be lent, and no array alone.
pub fn receive_in(array: &mut [u8], count: usize, new: &[u8]) -> Received
    requires { (length array.old ≡ held_max) × (count ≤ held_max) }
    ensures { Receives result (take count array.old) new.now array.new }
{
    let decision = decide(array, count, new);
    let count = settle(array, decision);
    Received {
        answer: decision.answer,
        taken: decision.taken,
        count,
    }
}

// Puts the bytes to be held at the front of the array and answers how many they are, when the payload is no longer needed. For the
// crates above, with what `decide` answered for this array.
// Stays: a slice and no array, since `settle` promises this of a slice of any length that the part lies in, and may not ask more.
#[tactic(auto, using(line::proofs::Moving::front_moved))]
pub fn settle(array: &mut [u8], decision: Decision) -> usize
    requires { decision.start + decision.count ≤ length array.old }
    ensures { (result ≡ decision.count)
        × (take result array.new ≡ take decision.count (drop decision.start array.old)) }
{
    let start = decision.start;
    let count = decision.count;
    move_to_front(array, start, count);
    count
}
