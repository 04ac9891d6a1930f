ghost use Rattle.std.specs.Prelude.{◌≡◌};
ghost use Rattle.rt_events.specs.reading.Operands.{number_alone};

use rt_base::{LockId, Path, TaskId};

/// The fields of an entry that its operands tell.
#[derive(Clone, Copy, Debug)]
pub(crate) struct Operands {
    pub lock: Option<LockId>,
    pub other: Option<TaskId>,
    pub woken: Option<TaskId>,
    pub value: u8,
    pub path: Path,
}

impl Operands {
    /// Nothing but a number.
    pub(crate) fn number_alone(value: u8) -> Operands
        ensures { result ≡ number_alone value }
    {
        Operands {
            lock: None,
            other: None,
            woken: None,
            value,
            path: Path::empty(),
        }
    }
}
