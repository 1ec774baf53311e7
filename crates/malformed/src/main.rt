// Endpoints that no list of calls reaches: each breaks one clause of document 01's malformed rule, and three break none. A line each:
// what submit, receive and poll answer, a refusal's number or `accepted`. The file `stdout` beside this folder was written from
// document 01.
#![tactic(auto)]

mod calls; // what the three calls answer
mod endpoints; // an endpoint at every limit, and changes of it

use crate::calls::{print_answers, print_refusals};
use crate::endpoints::{
    CLOCK, LATER, first, flight, of_rows, second, sound, third, unwanted, with_count, with_held,
    with_id, with_len, with_next, with_reserved, with_row, with_state,
};
use endpoint::State;
use std::io;

fn main(rt: HostRuntime) -> io::Result<()> {
    print_sound(&rt)?;
    print_reserved(&rt)?;
    print_live_ids(&rt)?;
    print_next_ids(&rt)?;
    print_equal_ids(&rt)?;
    print_flights(&rt)?;
    print_transmissions(&rt)?;
    print_times(&rt)?;
    print_late(&rt)?;
    print_counts(&rt)?;
    print_lengths(&rt)?;
    print_held(&rt)
}

// Every limit is met exactly. Submit's 5 says that three are live. Calls with another fault have its number.
fn print_sound(rt: &impl Print) -> io::Result<()> {
    print_answers(rt, "none, three live", sound())?;
    print_answers(rt, "none, two live", with_count(sound(), 2))?;
    print_refusals(rt, "none, two live, faulty calls", with_count(sound(), 2))
}

// "R over 255"
fn print_reserved(rt: &impl Print) -> io::Result<()> {
    let higher = of_rows([first(), with_id(second(), 257), with_id(third(), 258)]);
    print_answers(rt, "R over 255", with_reserved(with_next(higher, 257), 256))
}

// "a live .. ID outside R + 1 to 65535"
fn print_live_ids(rt: &impl Print) -> io::Result<()> {
    print_answers(rt, "first live ID R", with_row(0, with_id(first(), 255)))?;
    print_answers(rt, "second live ID R", with_row(1, with_id(second(), 255)))?;
    print_answers(rt, "third live ID R", with_row(2, with_id(third(), 255)))?;
    print_answers(rt, "live ID 0", with_row(2, with_id(third(), 0)))
}

// "a .. next ID outside R + 1 to 65535"
fn print_next_ids(rt: &impl Print) -> io::Result<()> {
    print_answers(rt, "next ID R", with_next(sound(), 255))?;
    print_answers(rt, "next ID 0", with_next(sound(), 0))
}

// "two equal live IDs"
fn print_equal_ids(rt: &impl Print) -> io::Result<()> {
    print_answers(
        rt,
        "first and second ID equal",
        with_row(1, with_id(second(), 65535)),
    )?;
    print_answers(
        rt,
        "first and third ID equal",
        with_row(2, with_id(third(), 65535)),
    )?;
    print_answers(
        rt,
        "second and third ID equal",
        with_row(2, with_id(third(), 256)),
    )
}

// "two in flight"
fn print_flights(rt: &impl Print) -> io::Result<()> {
    let flying = flight(1, CLOCK);
    print_answers(
        rt,
        "first and second in flight",
        with_row(0, with_state(first(), flying)),
    )?;
    print_answers(
        rt,
        "second and third in flight",
        with_row(2, with_state(third(), flying)),
    )
}

// "transmissions not 1 to 3"
fn print_transmissions(rt: &impl Print) -> io::Result<()> {
    print_transmitted(rt, "one transmission", 1)?;
    print_transmitted(rt, "no transmission", 0)?;
    print_transmitted(rt, "four transmissions", 4)?;
    print_transmitted(rt, "255 transmissions", 255)
}

fn print_transmitted(rt: &impl Print, what: &str, transmissions: u8) -> io::Result<()> {
    print_answers(
        rt,
        what,
        with_row(1, with_state(second(), flight(transmissions, CLOCK))),
    )
}

// "a waiting request that wants no response; a time later than the clock"
fn print_times(rt: &impl Print) -> io::Result<()> {
    print_answers(rt, "waiting for nothing", with_row(0, unwanted(first())))?;
    print_answers(
        rt,
        "waiting since later",
        with_row(0, with_state(first(), State::Waiting(LATER))),
    )
}

// "a time later than the clock"; no other number comes before 1.
fn print_late(rt: &impl Print) -> io::Result<()> {
    let late = with_row(1, with_state(second(), flight(3, LATER)));
    print_answers(rt, "sent later", late)?;
    print_refusals(rt, "sent later, faulty calls", late)
}

// "more than three live"
fn print_counts(rt: &impl Print) -> io::Result<()> {
    print_answers(rt, "four live", with_count(sound(), 4))?;
    print_answers(rt, "2^64 - 1 live", with_count(sound(), usize::MAX))
}

// "data over 248"
fn print_lengths(rt: &impl Print) -> io::Result<()> {
    print_answers(
        rt,
        "first with 249 bytes",
        with_row(0, with_len(first(), 249)),
    )?;
    print_answers(
        rt,
        "second with 249 bytes",
        with_row(1, with_len(second(), 249)),
    )?;
    print_answers(
        rt,
        "third with 249 bytes",
        with_row(2, with_len(third(), 249)),
    )
}

// "more than 265 held"
fn print_held(rt: &impl Print) -> io::Result<()> {
    print_answers(rt, "266 held", with_held(sound(), 266))?;
    print_answers(rt, "2^64 - 1 held", with_held(sound(), usize::MAX))
}
