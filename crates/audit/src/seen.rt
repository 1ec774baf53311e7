// One step of an audit: an ID beside those before it, which a table holds, a bit for each ID there is.
ghost use Rattle.std.specs.Prelude.{◌≡◌, ◌||◌, eqb, leb};
ghost use Rattle.audit.specs.Code.{has_seen, with_seen, Judged};

// The words of a table: a bit for each 16-bit ID.
pub const WORDS: usize = 1024;

// The bits of a word. ID n is bit n % BITS of word n / BITS.
const BITS: u16 = 64;

// Whether an ID is 0, at most R, or among those that the table holds; where it is not, the table holds it too afterwards.
// Ruled out: an ID that is not marked, so that the next one equal to it is let through, and one that is marked before it is looked up.
pub fn is_unsound(id: u16, reserved: u64, seen: &mut [u64; WORDS]) -> bool
    ensures { Judged reserved id seen.old seen.new result }
{
    is_reserved(id, reserved) || mark(id, seen)
}

// Whether an ID is 0 or at most R. Every R is at least 0, so one comparison answers both.
fn is_reserved(id: u16, reserved: u64) -> bool
    ensures { result ≡ (eqb id 0 || leb id reserved) }
{
    id as u64 <= reserved
}

// Marks an ID as seen, and answers whether it was seen before.
#[tactic(auto, unfolding(crate::specs::Code::has_seen, crate::specs::Code::with_seen))]
fn mark(id: u16, seen: &mut [u64; WORDS]) -> bool
    ensures { (result ≡ has_seen seen.old id) × (seen.new ≡ with_seen seen.old id) }
{
    let place = (id / BITS) as usize;
    let bit = (id % BITS) as u32;
    let word = seen[place];
    seen[place] = word | (1 << bit);
    (word >> bit) % 2 == 1
}
