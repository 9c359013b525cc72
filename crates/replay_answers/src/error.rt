// Why a line makes no call, and that it makes none.
ghost use Rattle.std.specs.Prelude.{◌≡◌};
ghost use Rattle.replay_answers.specs.declared.error.LineError.TheVariants.{OutOfMemory};

use std::alloc::{AllocError, AllocFailed};

#[derive(Clone, Copy, Debug, PartialEq, Eq)]
pub enum LineError {
    // The line is not in the layout.
    Malformed,
    OutOfMemory,
}

impl From<AllocError> for LineError {
    ghost from_gives = { λ _ e. e ≡ OutOfMemory };

    fn from(_error: AllocError) -> LineError {
        LineError::OutOfMemory
    }
}

impl<T: Drop> From<AllocFailed<T>> for LineError {
    ghost from_gives = { λ _ e. e ≡ OutOfMemory };

    fn from(_error: AllocFailed<T>) -> LineError {
        LineError::OutOfMemory
    }
}

// A line that makes no call, whatever the reason.
#[derive(Clone, Copy, Debug, PartialEq, Eq)]
pub struct NoCall;

impl From<LineError> for NoCall {
    fn from(_error: LineError) -> NoCall {
        NoCall
    }
}
