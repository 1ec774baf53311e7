// Bytes copied to the front of a slice, a part of a slice, and the first byte of a kind searched in such a part.
#![tactic(auto)]

ghost use Rattle.std.specs.Prelude.{◌≡◌, ◌≢◌, ℕ, ◌++◌, ◌≤◌, ◌<◌, length, take, drop, slice_index};

// Copies all of `from` to the front of `to`, whose other bytes stay, and answers how many bytes that were. Public for the crates above,
// which see that it fits.
// Ruled out: a byte left out, and one behind them that changes.
pub fn copy(from: &[u8], to: &mut [u8]) -> usize
    requires { length from.now ≤ length to.old }
    ensures count { result ≡ length from.now }
    ensures whole { to.new ≡ take (length from.now) from.now ++ drop (length from.now) to.old }
{
    let len = from.len();
    to[..len].copy_from_slice(from);
    len
}

// The len bytes from a place on, or those that there are.
// Ruled out: no byte where there are fewer than len, and a part that begins a byte late.
pub fn part(bytes: &[u8], at: usize, len: usize) -> &[u8]
    ensures { result.now ≡ take len (drop at bytes.now) }
{
    let rest = &bytes[at.min(bytes.len())..];
    &rest[..len.min(rest.len())]
}

// The place of the first byte of the kind asked for among those from `from` up to `to`, or `to` where there is none. The part is to be one
// of the slice. No crate calls it.
// Ruled out: a later place, and one behind the part.
// Stays: a place and no Option of one, since `find` is public, and its clause `within` promises a place also where there is none.
pub fn find(bytes: &[u8], from: usize, to: usize, byte: u8) -> usize
    requires { (from ≤ to) × (to ≤ length bytes.now) }
    ensures within { (from ≤ result) × (result ≤ to) }
    ensures before { (k : ℕ) → from ≤ k → k < result → slice_index bytes.now k ≢ byte }
    ensures found { result < to → slice_index bytes.now result ≡ byte }
{
    let found = bytes[from..to].iter().position(|b| *b == byte);
    found.map_or(to, |i| from + i)
}
