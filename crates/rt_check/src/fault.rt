use rt_base::NoMemory;

/// Why a text isn't told to be legal.
#[derive(Clone, Copy, Debug, PartialEq, Eq)]
pub enum CheckFault {
    /// The text is no run's. `line` is its first wrong line, counted from 1 at the header, or the place where
    /// a line is missing. `why` is 1 where no such line may stand there, 2 where it tells an event that isn't
    /// its task's next one, or isn't numbered so, 3 where it tells another end than the state's, and 4 where
    /// it tells another report than the state's.
    Illegal { line: u32, why: u8 },
    /// Memory ran out.
    Memory(NoMemory),
}
