// The parts of a line that tell whom a command addresses and how a request ended, as text: for `transcript`. Each is put where there
// is room for it: in a vector of fixed room, or in a lent buffer behind a place.
// Stays: text by a match and no Display, since an impl stands beside its type, which knows no transcript; a type of its own around each would be
// longer, and the contracts here say how much room is needed too.
#![tactic(auto)]

ghost use Rattle.std.specs.Prelude.{◌≡◌, ◌+◌, ◌≤◌, length};
ghost use Rattle.texts.specs.Text.{Puts};
ghost use Rattle.transcript_parts.specs.Parts.{address_text, fields_text, cause_text, ending_text};
ghost use Rattle.transcript_parts.specs.Parts.{address_room, fields_room, cause_room, ending_room};

use command::Fields;
use ledger::{Cause, Ending};
use texts::room::Room;
use texts::{put, put_named, put_spaced};

// The fields of a command, each behind a space: TC, TID, SID, IID and CID. Public for `transcript`.
// Ruled out: TID and SID exchanged, and a field left out.
#[tactic(auto, unfolding(crate::specs::Parts::fields_text))]
pub fn put_fields<R: Room>(out: &mut R, fields: Fields)
    requires { length (R.text out.old) + fields_room ≤ R.most out.old }
    ensures puts { Puts fields_room (fields_text fields) (R.text out.old) (R.text out.new) }
    ensures stays { (R.most out.new ≡ R.most out.old) × (R.lent out.new ≡ R.lent out.old) }
{
    put_address(out, fields);
    put_spaced(out, fields.iid as u64);
    put_spaced(out, fields.cid as u64);
}

#[tactic(auto, unfolding(crate::specs::Parts::address_text))]
fn put_address<R: Room>(out: &mut R, fields: Fields)
    requires { length (R.text out.old) + address_room ≤ R.most out.old }
    ensures puts { Puts address_room (address_text fields) (R.text out.old) (R.text out.new) }
    ensures stays { (R.most out.new ≡ R.most out.old) × (R.lent out.new ≡ R.lent out.old) }
{
    put_spaced(out, fields.tc as u64);
    put_spaced(out, fields.tid as u64);
    put_spaced(out, fields.sid as u64);
}

// An ending: its request ID and its cause. Public for `transcript`.
// Ruled out: a response said where none came, and an ending without its ID.
#[tactic(auto, unfolding(crate::specs::Parts::ending_text))]
pub fn put_ending<R: Room>(out: &mut R, ending: Ending)
    requires { length (R.text out.old) + ending_room ≤ R.most out.old }
    ensures puts { Puts ending_room (ending_text ending) (R.text out.old) (R.text out.new) }
    ensures stays { (R.most out.new ≡ R.most out.old) × (R.lent out.new ≡ R.lent out.old) }
{
    let id = ending.id;
    let cause = ending.cause;
    put_named(out, b"ended ", id.0 as u64);
    put_cause(out, cause);
}

#[tactic(auto, unfolding(crate::specs::Parts::cause_text))]
fn put_cause<R: Room>(out: &mut R, cause: Cause)
    requires { length (R.text out.old) + cause_room ≤ R.most out.old }
    ensures puts { Puts cause_room (cause_text cause) (R.text out.old) (R.text out.new) }
    ensures stays { (R.most out.new ≡ R.most out.old) × (R.lent out.new ≡ R.lent out.old) }
{
    match cause {
        Cause::Acknowledged => put(out, b" acknowledged"),
        Cause::Response => put(out, b" response"),
        Cause::NoResponse => put(out, b" no-response"),
        Cause::NoAcknowledgement => put(out, b" no-acknowledgement"),
    }
}
