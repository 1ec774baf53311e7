// Prints published checksum vectors, a line each: the bytes in hexadecimal (`-` for none), then their checksum.
// The file `stdout` beside this folder is what the independent implementation under `tests/` wrote for the same bytes.
#![tactic(auto)]

use std::io;

fn main(rt: HostRuntime) -> io::Result<()> {
    // the CRC catalogue's check value, and no bytes
    print_vector(&rt, b"123456789")?;
    print_vector(&rt, b"")?;
    // AUTOSAR, Specification of CRC Routines, 16-bit CCITT
    print_vector(&rt, b"\x00\x00\x00\x00")?;
    print_vector(&rt, b"\xF2\x01\x83")?;
    print_vector(&rt, b"\x0F\xAA\x00\x55")?;
    print_vector(&rt, b"\x00\xFF\x55\x11")?;
    print_vector(&rt, b"\x33\x22\x55\xAA\xBB\xCC\xDD\xEE\xFF")?;
    print_vector(&rt, b"\x92\x6B\x55")?;
    print_vector(&rt, b"\xFF\xFF\xFF\xFF")
}

fn print_vector(rt: &impl Print, bytes: &[u8]) -> io::Result<()> {
    if bytes.is_empty() {
        print!(rt; "-")?;
    }
    print_bytes(rt, bytes)?;
    let sum = checksum::checksum(bytes);
    println!(rt; " {sum:04x}")
}

fn print_bytes(rt: &impl Print, bytes: &[u8]) -> io::Result<()> {
    for byte in bytes {
        print!(rt; "{byte:02x}")?;
    }
    Ok(())
}
