// The line as a C function, for the comparisons under `tests/` and the benchmarks alone: `include/fizrahum.h` does not declare it.
#![tactic(auto)]

mod numbers; // the line's answer as numbers

ghost use Rattle.line_probe.specs.Numbers.{numbers, Probed};
ghost use Rattle.line_probe.specs.Code.{numbers_in};

use crate::numbers::{Numbers, of_received, refused};
use line::HELD_MAX;
use line_receiving::receive;

// The next item of the array's first count bytes and of the new ones. Answers 0 for *more*, the number of the rule that decided,
// or 1 where the array is not of HELD_MAX bytes or count is over that, which leaves the array. Sets all five numbers.
#[unsafe(no_mangle)]
pub extern "C" fn fizrahum_probe_receive(
    array: &mut [u8],
    count: usize,
    new: &[u8],
    kind: &mut u8,
    seq: &mut u8,
    len: &mut usize,
    taken: &mut usize,
    held: &mut usize,
) -> u8
    ensures { Probed (numbers result kind.new seq.new len.new taken.new held.new)
        count new.now array.old array.new }
{
    let answer = probe(array, count, new);
    *kind = answer.kind;
    *seq = answer.seq;
    *len = answer.len;
    *taken = answer.taken;
    *held = answer.held;
    answer.rule
}

fn probe(array: &mut [u8], count: usize, new: &[u8]) -> Numbers
    ensures { Probed (numbers_in result) count new.now array.old array.new }
{
    let Some(array) = array.as_mut_array::<HELD_MAX>() else {
        return refused();
    };
    if HELD_MAX < count {
        return refused();
    }
    of_received(receive(array, count, new))
}
