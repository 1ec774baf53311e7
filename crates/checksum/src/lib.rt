// The checksum of the messages on the line (document 01, "Bytes on the line"): CRC-16/CCITT-FALSE over a slice of bytes.
// What it is, bit by bit, is `specs/Checksum.antt`; laws about it are `proofs/Laws.antt`.
#![tactic(auto)]

ghost use Rattle.std.specs.Prelude.{◌≡◌};
ghost use Rattle.checksum.specs.Checksum.{checksum_of, with_bit, with_bits, bits_of};

const POLYNOMIAL: u16 = 0x1021;

const START: u16 = 0xFFFF;

// The checksum of the bytes, of any number; of none it is 0xFFFF.
#[tactic(auto, using(crate::proofs::Turns::next_byte, crate::proofs::Turns::last_byte), unfolding(crate::specs::Checksum::checksum_of))]
pub fn checksum(bytes: &[u8]) -> u16
    ensures { result ≡ checksum_of bytes.now }
{
    let mut register = START;
    for byte in bytes {
        register = with_byte(register, *byte);
    }
    register // no final change
}

// The register after one byte, its highest bit first.
#[tactic(auto, using(crate::proofs::Turns::all_bits, crate::proofs::Turns::next_bit, crate::proofs::Turns::last_bit))]
fn with_byte(mut register: u16, byte: u8) -> u16
    ensures { result ≡ with_bits register (bits_of byte) }
{
    for place in (0..8u32).rev() {
        register = with_bit(register, (byte >> place) as u16 % 2);
    }
    register
}

// The register after one bit, 0 or 1.
#[tactic(auto, unfolding(crate::specs::Checksum::with_bit))]
fn with_bit(register: u16, bit: u16) -> u16
    ensures { result ≡ with_bit register bit }
{
    let moved = register << 1;
    if register >> 15 == bit {
        moved
    } else {
        moved ^ POLYNOMIAL
    }
}
