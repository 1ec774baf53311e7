// A line of a script as a call (docs/SESSION-SCRIPT.md).
#![tactic(auto)]

pub mod calls; // the call on a line
mod fields; // the fields of a line
mod numbers; // numbers in decimal
