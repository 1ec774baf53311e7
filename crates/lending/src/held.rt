// Held bytes and new ones, with the array of the line as a slice, and a part as two numbers.
ghost use Rattle.std.specs.Prelude.{◌≡◌, false, ◌+◌, ◌≤◌, ◌<◌, length, take, drop};
ghost use Rattle.message.specs.Items.{undecided, scan};
ghost use Rattle.line.specs.Receiving.{held_max};
ghost use Rattle.line.specs.Code.{breaks};
ghost use Rattle.line.specs.Promises.{Decides, Receives};

use line::{Decision, Received};
use line_deciding::decide;
use line_joining::join;
use line_receiving::receive_in;

fn join_part(array: &mut [u8], from: usize, kept: usize, new: &[u8]) -> Decision
    requires { (length array.old ≡ held_max) × (from + kept ≤ held_max) × (0 < kept)
        × (scan (take kept (drop from array.old)) ≡ undecided 0) × (breaks kept new.now ≡ false) }
    ensures { Decides result (take kept (drop from array.old)) new.now array.new }
{
    join(array, from, kept, new)
}

fn decide_slice(array: &mut [u8], count: usize, new: &[u8]) -> Decision
    requires { (length array.old ≡ held_max) × (count ≤ held_max) }
    ensures { Decides result (take count array.old) new.now array.new }
{
    decide(array, count, new)
}

fn receive_slice(array: &mut [u8], count: usize, new: &[u8]) -> Received
    requires { (length array.old ≡ held_max) × (count ≤ held_max) }
    ensures { Receives result (take count array.old) new.now array.new }
{
    receive_in(array, count, new)
}
