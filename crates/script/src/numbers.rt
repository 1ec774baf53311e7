// Numbers in decimal, without sign or leading zeros.
ghost use Rattle.std.specs.Prelude.{◌≡◌, ◌+◌, ◌-◌, ◌*◌, ◌≤◌, IfOk};
ghost use Rattle.script.specs.Reading.{value_from};

use script_bytes::faults::Fault;

// The value of a field, at most `most`, or what is wrong with it.
// Stays: digit by digit and no `parse`, which takes a sign and leading zeros too, and tells no fault of a script.
#[tactic(auto, using(crate::proofs::Digits::value_step, crate::proofs::Digits::value_end))]
pub(crate) fn value_of(digits: &[u8], most: u64) -> Result<u64, Fault>
    ensures within { IfOk result (λ value. value ≤ most) }
    ensures reads { IfOk result (λ value. value ≡ value_from 0 digits.now) }
{
    if digits.is_empty() {
        return Err(Fault::NotNumber);
    }
    let mut value = 0;
    for byte in digits {
        value = with_digit(value, *byte, most)?;
    }
    if let [b'0', _, ..] = digits {
        return Err(Fault::LeadingZero);
    }
    Ok(value)
}

// The value with a digit behind it.
fn with_digit(value: u64, byte: u8, most: u64) -> Result<u64, Fault>
    ensures within { IfOk result (λ next. next ≤ most) }
    ensures reads { IfOk result (λ next. next ≡ value * 10 + (byte - 48)) }
{
    let b'0'..=b'9' = byte else {
        return Err(Fault::NotNumber);
    };
    let digit = (byte - b'0') as u64;
    match value
        .checked_mul(10)
        .and_then(|tens| tens.checked_add(digit))
    {
        Some(next) if next <= most => Ok(next),
        _ => Err(Fault::TooLarge),
    }
}
