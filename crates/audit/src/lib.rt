// The request-row audit (document 01, "Request-row audit") over rows of whatever has an ID: ID numbers, or request records.
#![tactic(auto)]

pub mod seen; // which IDs a walk has passed

ghost use Rattle.std.specs.Prelude.{◌≡◌, ℕ, map};
ghost use Rattle.audit.specs.Audit.{audit};

use crate::seen::{WORDS, is_unsound};

// What stands in a row: an audit reads its ID, and nothing else of it.
pub trait HasId {
    ghost id_of: { Self → ℕ };

    fn id(&self) -> u16
        ensures { result ≡ id_of self.now };
}

impl HasId for u16 {
    ghost id_of = { λ id. id };

    fn id(&self) -> u16 {
        *self
    }
}

// Audits a row of IDs, beside a number R: the first position whose ID is unsound, or that there is none. The row is only read.
// Ruled out: the position of the earlier one of two equal IDs, and no finding for an ID equal to R.
pub fn audit_ids(ids: &[u16], reserved: u64) -> Option<usize>
    ensures { result ≡ audit reserved ids.now }
{
    audit_row(ids, reserved)
}

// Audits a row of items by their IDs, beside a number R. The row is only read.
// Ruled out: the last item passed over, and a position for a row in which there is none.
pub fn audit_row<T: HasId>(row: &[T], reserved: u64) -> Option<usize>
    ensures { result ≡ audit reserved (map T.id_of row.now) }
{
    let mut seen = [0; WORDS];
    row.iter()
        .position(|item| is_unsound(item.id(), reserved, &mut seen))
}
