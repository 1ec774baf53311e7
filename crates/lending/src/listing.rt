// The words and lines of a listing for a lent buffer of any length, behind any place: where they end.
ghost use Rattle.std.specs.Prelude.{◌≡◌, ◌++◌, ◌+◌, ◌≤◌, ◌<◌, length, take};
ghost use Rattle.listing_words.specs.Words.{decimal_limit, decimal, word};
ghost use Rattle.listing_lines.specs.Text.{end_of, line_room};

use listing_lines::text;
use texts::room::Lent;

fn put_word(out: &mut [u8], at: usize, kind: u8) -> usize
    requires { at + 4 ≤ length out.old }
    ensures { (result ≡ at + 4) × (take result out.new ≡ take at out.old ++ word kind) }
{
    let mut room = Lent { out, at };
    listing_words::put_word(&mut room, kind);
    room.at
}

fn put_decimal(out: &mut [u8], at: usize, n: usize) -> usize
    requires { (at + 3 ≤ length out.old) × (n < decimal_limit) }
    ensures { (result ≤ at + 3) × (take result out.new ≡ take at out.old ++ decimal n) }
{
    let mut room = Lent { out, at };
    listing_words::put_decimal(&mut room, n);
    room.at
}

fn put(out: &mut [u8], at: usize, bytes: &[u8]) -> usize
    requires { at + length bytes.now ≤ length out.old }
    ensures { (result ≡ at + length bytes.now) × (take result out.new ≡ take at out.old ++ bytes.now) }
{
    let mut room = Lent { out, at };
    listing_words::put(&mut room, bytes);
    room.at
}

fn put_end(out: &mut [u8], at: usize, held: usize) -> usize
    requires { (at + line_room ≤ length out.old) × (held < decimal_limit) }
    ensures { (result ≤ length out.new) × (take result out.new ≡ take at out.old ++ end_of held) }
{
    let mut room = Lent { out, at };
    text::put_end(&mut room, held);
    room.at
}
