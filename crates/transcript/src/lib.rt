// The answer to a call as a line of text (docs/SESSION-SCRIPT.md).
#![tactic(auto)]

pub mod numbers; // the number of a refusal
pub mod answers; // the line of each answer
mod parts; // the parts of an answer
