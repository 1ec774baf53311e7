// The parts of a line.
use std::io;

pub(crate) fn print_id(rt: &impl Print, id: u16) -> io::Result<()> {
    print!(rt; " {id}")
}

pub(crate) fn print_reserved(rt: &impl Print, reserved: u64) -> io::Result<()> {
    print!(rt; ", R {reserved}")
}

pub(crate) fn print_finding(rt: &impl Print, finding: Option<usize>) -> io::Result<()> {
    match finding {
        Some(position) => println!(rt; ": {position}"),
        None => println!(rt; ": none"),
    }
}
