ghost use Rattle.std.specs.Prelude.{◌≡◌};
ghost use Rattle.rt_script.specs.declared.line_error.LineError.TheVariants.{Memory};

use crate::fault::Why;
use std::alloc::{AllocError, AllocFailed};

/// Why a line couldn't be read.
#[derive(Clone, Copy, Debug)]
pub(crate) enum LineError {
    /// The line is at fault.
    Fault(Why),
    /// Memory ran out.
    Memory,
}

impl From<AllocError> for LineError {
    ghost from_gives = { λ _ e. e ≡ Memory };

    fn from(_e: AllocError) -> LineError {
        LineError::Memory
    }
}

impl<T: Drop> From<AllocFailed<T>> for LineError {
    ghost from_gives = { λ _ e. e ≡ Memory };

    fn from(_e: AllocFailed<T>) -> LineError {
        LineError::Memory
    }
}
