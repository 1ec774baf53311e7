// What is wrong with a script, in the words of docs/SESSION-SCRIPT.md.
use thiserror::Error;

#[derive(Clone, Copy, Debug, PartialEq, Eq, Error)]
pub enum Fault {
    // the line does not begin with a call
    #[error("unknown call")]
    UnknownCall,
    // the first call is open, and there is no second one
    #[error("the first call must be open")]
    NotOpened,
    #[error("a second open")]
    OpenedBefore,
    // a field is missing, or is not what stands in its place
    #[error("missing field")]
    MissingField,
    #[error("expected a number")]
    NotNumber,
    #[error("a number begins with 0")]
    LeadingZero,
    #[error("number too large")]
    TooLarge,
    #[error("expected wanted or unwanted")]
    NotWanted,
    #[error("expected lowercase hexadecimal pairs")]
    NotPairs,
    #[error("bytes over 4096")]
    TooManyBytes,
    // more than the call's fields, or more than a line may have
    #[error("text after the last field")]
    TextAfter,
    #[error("line too long")]
    LongLine,
}
