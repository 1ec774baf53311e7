// The checksum bit by bit, as its definition words it, as a C function to measure another way of computing it by. No crate, program or
// benchmark calls it yet, and `include/fizrahum.h` does not declare it.
// Stays: the code of crate `checksum` and no call of it, since must-fail edits of this crate change its polynomial, start and bits.
#![tactic(auto)]

ghost use Rattle.std.specs.Prelude.{◌≡◌};
ghost use Rattle.checksum.specs.Checksum.{checksum_of, with_bit, with_bits, bits_of};

const POLYNOMIAL: u16 = 0x1021;

const START: u16 = 0xFFFF;

// The checksum of the bytes, of any number, as a C function.
#[unsafe(no_mangle)]
pub extern "C" fn fizrahum_probe_checksum(bytes: &[u8]) -> u16
    ensures { result ≡ checksum_of bytes.now }
{
    by_bits(bytes)
}

#[tactic(auto, using(checksum::proofs::Turns::next_byte, checksum::proofs::Turns::last_byte), unfolding(checksum::specs::Checksum::checksum_of))]
fn by_bits(bytes: &[u8]) -> u16
    ensures { result ≡ checksum_of bytes.now }
{
    let mut register = START;
    for byte in bytes {
        register = with_byte(register, *byte);
    }
    register // no final change
}

// The register after one byte, its highest bit first.
#[tactic(auto, using(checksum::proofs::Turns::all_bits, checksum::proofs::Turns::next_bit, checksum::proofs::Turns::last_bit))]
fn with_byte(mut register: u16, byte: u8) -> u16
    ensures { result ≡ with_bits register (bits_of byte) }
{
    for place in (0..8u32).rev() {
        register = with_bit(register, (byte >> place) as u16 % 2);
    }
    register
}

// The register after one bit, 0 or 1.
#[tactic(auto, unfolding(checksum::specs::Checksum::with_bit))]
fn with_bit(register: u16, bit: u16) -> u16
    ensures { result ≡ with_bit register bit }
{
    let moved = register << 1;
    if register >> 15 == bit {
        moved
    } else {
        moved ^ POLYNOMIAL
    }
}
