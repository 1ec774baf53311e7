// Why a script was not run to its end, as standard error says it.
use script_bytes::faults::Fault;
use streams::failure::Failure;
use thiserror::Error;

#[derive(Clone, Copy, Debug, Error)]
pub(crate) enum Stop {
    // what is wrong with the line of this number
    #[error("line {number}: {fault}")]
    Wrong { number: u64, fault: Fault },
    // why reading or writing stopped
    #[error(transparent)]
    Failed(#[from] Failure),
}
