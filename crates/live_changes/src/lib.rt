// The changes that a call makes to the live requests of an endpoint, with their data in the rooms of its store (document 01,
// **Submit**: "The request joins as queued."; "An ended request leaves; its room is used by the next submit.").
#![tactic(auto)]

mod lent; // the changes in a slice that is as long as a store
pub mod rooms; // the data of a request in the store

ghost use Rattle.std.specs.Prelude.{◌≡◌, List, [], ◌∷◌, ◌++◌, ℕ, ◌≤◌, ◌<◌, length, take, set, Some};
ghost use Rattle.command.specs.Payload.{max_data};
ghost use Rattle.ledger.specs.Parts.{live_max};
ghost use Rattle.endpoint.specs.Endpoint.{request_of, live_of};
ghost use Rattle.endpoint.specs.Places.{after, Fits};
ghost use Rattle.live_changes.specs.Changing.{changed, Names, Becomes};
ghost use Rattle.live_changes.specs.declared.Change.TheVariants.{Turn};

use endpoint::{Request, Requests, STORE_LENGTH, State};
use ledger::Cause;
pub use lent::{carry_out, joined};
use rooms::{fill, move_up};

// What a call does to the live requests, if anything: the one in a row turns into another state, or it leaves for a cause.
#[derive(Clone, Copy)]
pub enum Change {
    Turn(usize, State),
    End(usize, Cause),
}

// Live requests whose rows are within their array, and the data of each within its room.
#[derive(Clone, Copy)]
pub struct Live {
    pub requests: Requests,
    pub ghost fits: { Fits requests },
}

impl Live {
    // Carries out a change, if any. Asks for a row in use: a search has found it.
    // Ruled out: another request touched than the one named, and an ended request's data left to the next one.
    // Stays: `Names change count` and `row < count` are clauses, also in the crates above: a type of a row in use would hold the requests again.
    pub fn carry_out(self, store: &mut [u8; STORE_LENGTH], change: Option<Change>) -> Live
        requires { Names change self.requests.count }
        ensures { Becomes result.requests (changed change (live_of self.requests store.old)) store.old
            store.new }
    {
        match change {
            Some(Change::Turn(row, state)) => self.turned(row, state),
            Some(Change::End(row, _)) => self.without(store, row),
            None => self,
        }
    }

    // The request in a row goes into another state.
    fn turned(self, row: usize, state: State) -> Live
        requires { row < self.requests.count }
        ensures { (store : List ℕ)
            → Becomes result.requests (changed (Some (Turn row state)) (live_of self.requests store)) store store }
    {
        let mut requests = self.requests;
        requests.rows[row].state = state;
        Live { requests }
    }

    // The request in a row leaves: those after it move up, each with its data. Public for `host_polling`, whose poll ends a request and asks for
    // no other change: inlined there, it has the requests copied twice less, and that poll takes a sixth of its instructions less.
    // Ruled out: a request that stays though it ended, and one behind it that loses its data.
    #[inline(always)]
    pub fn without(self, store: &mut [u8; STORE_LENGTH], row: usize) -> Live
        requires { row < self.requests.count }
        ensures { Becomes result.requests
            (take row (live_of self.requests store.old) ++ after row (live_of self.requests store.old)) store.old
            store.new }
    {
        let mut requests = self.requests;
        let count = requests.count;
        for i in row..count - 1 {
            move_up(store, i, requests.rows[i + 1].len);
        }
        requests.rows.copy_within(row + 1..count, row);
        requests.count = count - 1;
        Live { requests }
    }

    // A request joins behind the others, with its data.
    // Ruled out: one that joins in front, and data in another's room.
    pub fn joined(self, store: &mut [u8; STORE_LENGTH], it: Request, data: &[u8]) -> Live
        requires { (self.requests.count < live_max) × (it.len ≡ length «data».now) × (it.len ≤ max_data) }
        ensures { Becomes result.requests
            (live_of self.requests store.old ++ (request_of it «data».now ∷ [])) store.old store.new }
    {
        let row = self.requests.count;
        fill(store, row, data);
        let mut requests = self.requests;
        requests.rows[row] = it;
        requests.count = row + 1;
        Live { requests }
    }
}
