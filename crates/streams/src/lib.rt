// Between lines and a reader or a writer: lines that wait, in a vector of fixed room or a lent buffer, are written, and why reading or
// writing stopped. For the lister and the session program.
#![tactic(auto)]

pub mod failure; // why reading or writing stopped

ghost use Rattle.std.specs.Prelude.{◌≡◌, [], OnOk};
ghost use Rattle.std.specs.Io.KnownBytes.{Appends};

use std::io;
use std::io::Write;
use texts::room::Room;

// Writes what waits. Nothing waits afterwards, even where the write failed. Public for `listing_lines`, `listing` and `runner`.
// Ruled out: bytes that wait and are not written, and bytes that wait still.
pub fn write_out<W: Write, R: Room>(output: &mut W, out: &mut R) -> io::Result<()>
    ensures written { OnOk result (Appends (W.contents output.old) (W.contents output.new) (R.text out.old)) }
    ensures empty { R.text out.new ≡ [] }
    ensures stays { (R.most out.new ≡ R.most out.old) × (R.lent out.new ≡ R.lent out.old) }
{
    let written = output.write_all(out.bytes());
    out.clear();
    written
}
