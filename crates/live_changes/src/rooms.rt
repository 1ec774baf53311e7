// The rooms of a store: the data of the request in row i stand in room i, behind the held bytes.
ghost use Rattle.std.specs.Prelude.{◌≡◌, suc, ◌≤◌, ◌<◌, length};
ghost use Rattle.message.specs.Writing.{placed};
ghost use Rattle.command.specs.Payload.{max_data};
ghost use Rattle.ledger.specs.Parts.{live_max};
ghost use Rattle.endpoint.specs.Endpoint.{room_place, room_at};

use command::MAX_DATA;
use endpoint::STORE_LENGTH;
use line::HELD_MAX;
use line::store::put_at;

// Where a room begins. For the host and the functions here, whose row is within the array.
// Ruled out: a room that overlaps the held bytes, and one that overlaps the next.
pub fn place_of(row: usize) -> usize
    requires { row ≤ live_max }
    ensures { result ≡ room_place row }
{
    HELD_MAX + row * MAX_DATA
}

// Puts data into a room.
// Stays: the length of the data is a clause: a type around the slice, made in the submit and opened here, would shorten nothing between.
pub(crate) fn fill(store: &mut [u8; STORE_LENGTH], row: usize, data: &[u8])
    requires { (row < live_max) × (length «data».now ≤ max_data) }
    ensures { store.new ≡ placed (room_place row) «data».now store.old }
{
    put_at(store, place_of(row), data);
}

// Moves the first len bytes of the next room into a room.
#[tactic(auto, using(line::proofs::Moving::length_part), unfolding(message::specs::Writing::placed))]
pub(crate) fn move_up(store: &mut [u8; STORE_LENGTH], row: usize, len: usize)
    requires { (suc row < live_max) × (len ≤ max_data) }
    ensures { store.new ≡ placed (room_place row) (room_at store.old (suc row) len) store.old }
{
    let from = place_of(row + 1);
    store.copy_within(from..from + len, place_of(row));
}
