// What both ends of a line share (document 01, "The ledger"): sequence IDs, the frame in flight and the repeat test. Whose frame it
// is does not matter here.
#![tactic(auto)]

pub mod sequence; // which sequence ID comes next
pub mod frame; // the frame in flight
pub mod repeats; // which frames of the other side are repeats
