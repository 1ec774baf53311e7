// Why standard input was not read to its end, or what was to be written was not.
ghost use Rattle.std.specs.Prelude.{Some};
ghost use Rattle.streams.specs.Failing.{said};

use std::error::Error;
use std::fmt;

// Ruled out, of what is said: a failed read said of a write, and nothing of an input without end.
#[derive(Clone, Copy, Debug, PartialEq, Eq)]
pub enum Failure {
    Read,
    Write,
    // the input does not end
    Endless,
}

// Stays: Display by hand, since the derive of `thiserror` has no `output`, by which the contract says the text.
impl fmt::Display for Failure {
    ghost output = { λ f. Some (said f) };

    #[tactic(auto, unfolding(crate::specs::Failing::said))]
    fn fmt<W: fmt::Write>(&self, f: &mut fmt::Formatter<W>) -> fmt::Result {
        match self {
            Failure::Read => f.write_str("reading standard input failed"),
            Failure::Write => f.write_str("writing standard output failed"),
            Failure::Endless => f.write_str("standard input does not end"),
        }
    }
}

impl Error for Failure {}
