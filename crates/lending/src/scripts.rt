// A call that is read from a line, kept while the buffer with its bytes is used on.
ghost use Rattle.std.specs.Prelude.{length, IfOk, IfSome};
ghost use Rattle.script.specs.Limits.{Within};

use script::calls::{Call, read_call};
use script_bytes::faults::Fault;

fn read_and_clear(line: &[u8], bytes: &mut [u8]) -> Result<Option<Call<usize>>, Fault>
    ensures { IfOk result (λ found. IfSome found (λ call. Within (λ count. count) (length bytes.new) call)) }
{
    let call = read_call(line, bytes);
    bytes.fill(0);
    call
}
