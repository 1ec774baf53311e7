// The request-row audit on sample rows: a line each, the IDs, R and the answer, the first unsound position or `none`; then on every
// row of three records over a few IDs. The independent implementation wrote the file `stdout` beside this folder.
#![tactic(auto)]

mod every; // every row of three records
mod print; // the parts of a line
mod records; // rows of request records

use crate::every::print_every;
use crate::print::{print_finding, print_id, print_reserved};
use crate::records::print_records;
use std::io;

fn main(rt: HostRuntime) -> io::Result<()> {
    print_sound(&rt)?;
    print_unsound(&rt)?;
    print_records(&rt)?;
    print_every(&rt)
}

// Rows in which there is none.
fn print_sound(rt: &impl Print) -> io::Result<()> {
    let few = [39, 40, 41];
    print_ids(rt, &few[..0], 38)?;
    print_ids(rt, &few, 38)?;
    print_ids(rt, &few, 0)?;
    let ends = [256, 65535];
    print_ids(rt, &ends, 255)
}

// Rows with an ID that is 0, at most R, or equal to an earlier one.
fn print_unsound(rt: &impl Print) -> io::Result<()> {
    let zero = [39, 0, 41];
    print_ids(rt, &zero, 38)?;
    print_ids(rt, &zero[1..], 0)?;
    let reserved = [39, 40, 38];
    print_ids(rt, &reserved, 38)?;
    print_ids(rt, &reserved, 39)?;
    let neighbours = [39, 40, 40, 39];
    print_ids(rt, &neighbours, 38)?;
    let apart = [39, 40, 41, 39];
    print_ids(rt, &apart, 38)?;
    let last = [65535];
    print_ids(rt, &last, 65535)?;
    print_ids(rt, &last, 18446744073709551615)
}

// The line of a row of IDs.
fn print_ids(rt: &impl Print, ids: &[u16], reserved: u64) -> io::Result<()> {
    print!(rt; "ids")?;
    for id in ids {
        print_id(rt, *id)?;
    }
    print_reserved(rt, reserved)?;
    print_finding(rt, audit::audit_ids(ids, reserved))
}
