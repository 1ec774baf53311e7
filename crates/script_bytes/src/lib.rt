// The bytes that a field of a script names, as pairs of lowercase hexadecimal digits (docs/SESSION-SCRIPT.md): for `script`, which
// finds the field. What can be wrong with a script stands here too, since `decode` answers it.
#![tactic(auto)]

pub mod faults; // what is wrong with a script

ghost use Rattle.std.specs.Prelude.{◌≡◌, ◌≤◌, ◌<◌, length, take, IfOk, IfSome};
ghost use Rattle.script_bytes.specs.Reading.{hex_value, bytes_of};

use crate::faults::Fault;

// Decodes pairs to the front of a lent buffer, and answers how many bytes they are. Public for `script`.
// Ruled out: the digits of a byte exchanged, and a count past the buffer's end.
#[tactic(auto, using(crate::proofs::Digits::bytes_end))]
pub fn decode(digits: &[u8], bytes: &mut [u8]) -> Result<usize, Fault>
    ensures within { IfOk result (λ count. count ≤ length bytes.new) }
    ensures reads { IfOk result (λ count. take count bytes.new ≡ bytes_of digits.now) }
{
    if digits.is_empty() {
        return Err(Fault::NotPairs);
    }
    for (i, pair) in digits.chunks(2).enumerate() {
        let [high, low] = pair else {
            return Err(Fault::NotPairs);
        };
        let (Some(high), Some(low)) = (digit_of(*high), digit_of(*low)) else {
            return Err(Fault::NotPairs);
        };
        if bytes.len() <= i {
            return Err(Fault::TooManyBytes);
        }
        bytes[i] = high * 16 + low;
    }
    Ok(digits.len() / 2)
}

// The value of a lowercase hexadecimal digit.
// Stays: a match and no `to_digit`, which takes uppercase letters too.
#[tactic(auto, using(crate::proofs::Digits::hex_low, crate::proofs::Digits::hex_high))]
fn digit_of(byte: u8) -> Option<u8>
    ensures below { IfSome result (λ digit. digit < 16) }
    ensures value { IfSome result (λ digit. digit ≡ hex_value byte) }
{
    match byte {
        b'0'..=b'9' => Some(byte - b'0'),
        b'a'..=b'f' => Some(byte - b'a' + 10),
        _ => None,
    }
}
