// Every row of three records over five IDs, with each number of rows in use and several R: an answer a character.
use crate::records::live;
use endpoint::{LIVE_MAX, Requests};
use std::io;

const IDS: [u16; 5] = [0, 1, 38, 39, 65535];

const RESERVED: [u64; 5] = [0, 1, 38, 65534, 18446744073709551615];

// How many rows of three there are, 5 * 5 * 5.
const ROWS: usize = 125;

pub(crate) fn print_every(rt: &impl Print) -> io::Result<()> {
    for reserved in RESERVED {
        print_counts(rt, reserved)?;
    }
    Ok(())
}

// The lines of an R: one for each number of rows in use.
fn print_counts(rt: &impl Print, reserved: u64) -> io::Result<()> {
    for count in 0..=LIVE_MAX {
        print_answers(rt, reserved, count)?;
    }
    Ok(())
}

// A line: R, how many rows are in use, and the answers.
fn print_answers(rt: &impl Print, reserved: u64, count: usize) -> io::Result<()> {
    print_head(rt, reserved, count)?;
    for number in 0..ROWS {
        print_answer(rt, number, count, reserved)?;
    }
    println!(rt; "")
}

fn print_head(rt: &impl Print, reserved: u64, count: usize) -> io::Result<()> {
    print!(rt; "R {reserved}, first {count}: ")
}

// An answer: the position, or `-` for none.
fn print_answer(rt: &impl Print, number: usize, count: usize, reserved: u64) -> io::Result<()> {
    match record_audit::audit_live(row(number, count), reserved) {
        Some(position) => print!(rt; "{position}"),
        None => print!(rt; "-"),
    }
}

// The row with this number: its digits to the base 5 choose the IDs.
fn row(number: usize, count: usize) -> Requests {
    let first = IDS[number / 25 % 5];
    let second = IDS[number / 5 % 5];
    let third = IDS[number % 5];
    live(first, second, third, count)
}
