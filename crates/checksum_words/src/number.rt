// Bytes as one number, the first byte highest. Eight bytes so written are one load.
ghost use Rattle.std.specs.Prelude.{◌≡◌, ◌+◌, ◌≤◌, length, take, drop};
ghost use Rattle.checksum_words.specs.Remainders.{number, number_from};

// The two bytes from a place on.
// Stays: a function for each type, since std has no trait of `from_be_bytes`; with an array of N bytes each caller would turn it into a number.
pub(crate) fn pair(bytes: &[u8], at: usize) -> u16
    requires { at + 2 ≤ length bytes.now }
    ensures { result ≡ number (take 2 (drop at bytes.now)) }
{
    u16::from_be_bytes(*bytes[at..].first_chunk().unwrap())
}

// The four bytes from a place on.
pub(crate) fn half(bytes: &[u8], at: usize) -> u32
    requires { at + 4 ≤ length bytes.now }
    ensures { result ≡ number (take 4 (drop at bytes.now)) }
{
    u32::from_be_bytes(*bytes[at..].first_chunk().unwrap())
}

// The eight bytes from a place on.
pub(crate) fn word(bytes: &[u8], at: usize) -> u64
    requires { at + 8 ≤ length bytes.now }
    ensures { result ≡ number (take 8 (drop at bytes.now)) }
{
    u64::from_be_bytes(*bytes[at..].first_chunk().unwrap())
}

// Up to four bytes behind a number of 32 bits.
// Stays: how many bytes they are is not fixed, and `from_be_bytes` takes an array.
pub(crate) fn behind(first: u32, bytes: &[u8]) -> u64
    requires { length bytes.now ≤ 4 }
    ensures { result ≡ number_from first bytes.now }
{
    let mut number = first as u64;
    for byte in bytes {
        number = number * 256 + *byte as u64;
    }
    number
}
