// The lines of a listing (document 01, "Capture lister") to a writer, many at a time: they wait in a vector of fixed room or a lent
// buffer until there is no room for one more. For `listing`, which reads.
#![tactic(auto)]

pub mod text; // an item as a line of text

ghost use Rattle.std.specs.Prelude.{◌≡◌, ◌≤◌, ◌<◌, false, [], length, take, IfOk, OnOk, OnErr};
ghost use Rattle.std.specs.Io.KnownBytes.{Appends};
ghost use Rattle.message.specs.Promises.{item_of};
ghost use Rattle.listing_words.specs.Words.{decimal_limit};
ghost use Rattle.listing_lines.specs.Text.{line_room, len_of};
ghost use Rattle.listing_lines.specs.Waiting.{has_room, writes, waits};

use crate::text::{LINE_ROOM, put_line};
use message::Item;
use std::io;
use std::io::Write;
use streams::write_out;
use texts::room::{Lent, Room};

// The line of an item joins those that wait; where there is no room for it, those are written first, and it waits alone. Where that
// write fails, nothing waits. Public for `listing`.
// Ruled out: a line that is put over those that wait, and one that is left out.
#[tactic(auto, unfolding(crate::specs::Waiting::writes, crate::specs::Waiting::waits))]
pub fn add_line<W: Write, R: Room>(output: &mut W, out: &mut R, item: Item) -> io::Result<()>
    requires { (line_room ≤ R.most out.old) × (len_of (item_of item) < decimal_limit) }
    ensures within { length (R.text out.new) ≤ R.most out.old }
    ensures joins { OnOk result (R.text out.new ≡ waits (R.most out.old) (R.text out.old) (item_of item)) }
    ensures written { OnOk result (Appends (W.contents output.old) (W.contents output.new) (writes (R.most out.old) (R.text out.old))) }
    ensures fails { OnErr result ((has_room (R.most out.old) (R.text out.old) ≡ false) × (R.text out.new ≡ [])) }
    ensures stays { (R.most out.new ≡ R.most out.old) × (R.lent out.new ≡ R.lent out.old) }
{
    if out.left() < LINE_ROOM {
        write_out(output, out)?;
    }
    put_line(out, item);
    Ok(())
}

// The same where the lines wait in the first `used` bytes of a lent buffer: how many wait then.
// Ruled out: a line at the front of the buffer, over those that wait there, and a count that leaves out the line's end.
pub fn add_line_behind<W: Write>(
    output: &mut W,
    out: &mut [u8],
    used: usize,
    item: Item,
) -> io::Result<usize>
    requires { (used ≤ length out.old) × (line_room ≤ length out.old) × (len_of (item_of item) < decimal_limit) }
    ensures joins { IfOk result (λ end. (end ≤ length out.new) × (take end out.new ≡ waits (length out.old) (take used out.old) (item_of item))) }
    ensures written { OnOk result (Appends (W.contents output.old) (W.contents output.new) (writes (length out.old) (take used out.old))) }
    ensures fails { OnErr result (has_room (length out.old) (take used out.old) ≡ false) }
{
    let mut room = Lent { out, at: used };
    add_line(output, &mut room, item)?;
    Ok(room.at)
}
