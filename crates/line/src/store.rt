// Bytes moved within the lent array, each once.
ghost use Rattle.std.specs.Prelude.{◌≡◌, ◌+◌, ◌≤◌, length, take, drop};
ghost use Rattle.message.specs.Writing.{placed};

// Moves count bytes from a place to the front. For the crates above, which know that they lie in the array.
// Ruled out: a byte that is written over before it is moved, and one behind the moved ones that changes.
#[tactic(auto, using(crate::proofs::Moving::length_part), unfolding(message::specs::Writing::placed))]
pub fn move_to_front(array: &mut [u8], from: usize, count: usize)
    requires { from + count ≤ length array.old }
    ensures { array.new ≡ placed 0 (take count (drop from array.old)) array.old }
{
    if from == 0 {
        return; // they stand there: pieces of one byte are received twice as fast without the copy
    }
    array.copy_within(from..from + count, 0);
}

// Puts bytes at a place. For the crates above, which know that they fit there.
// Ruled out: bytes put one place late, and one before or behind them that changes.
#[tactic(auto, using(message::proofs::Buffer::copied))]
pub fn put_at(array: &mut [u8], at: usize, bytes: &[u8])
    requires { at + length bytes.now ≤ length array.old }
    ensures { array.new ≡ placed at bytes.now array.old }
{
    byte_slices::copy(bytes, &mut array[at..]);
}
