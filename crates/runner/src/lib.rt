// A script of calls on one endpoint (docs/SESSION-SCRIPT.md): standard input to its end, a line an answer, in constant memory.
#![tactic(auto)]

mod gathering; // what a reader gives, as lines
mod running; // the calls of a script on one endpoint
mod lent; // the buffers that a call is lent
mod sheet; // lines to a writer, many at a time
mod complaints; // why a script was not run to its end

use crate::gathering::Script;
use std::io;

// Runs the script on standard input, and prints a line for each call on standard output. Where the script is malformed, or a read
// or a write fails, standard error says so and nothing more is run. No contract can say what a program reads or writes: that much
// is tested.
pub fn run_standard_input(rt: &(impl Input + Print + Eprint)) {
    let mut script = Script::new();
    let mut input = rt.reader();
    let mut output = io::writer(rt);
    if let Err(stop) = script.run(&mut input, &mut output) {
        let _ = eprintln!(rt; "session: {stop}");
    }
}
