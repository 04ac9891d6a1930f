use rt_base::NoMemory;

/// What is wrong with a line of a script.
#[derive(Clone, Copy, Debug, PartialEq, Eq)]
pub enum Why {
    /// A byte that isn't a printable ASCII character.
    NotAscii,
    /// Line 1 isn't the header.
    BadHeader,
    /// An unknown word, a wrong number of words, or a line in a wrong place.
    BadLine,
    /// A declared name of a wrong shape.
    BadName,
    /// A declared name that is there already.
    NameTwice,
    /// A used word that names no task, or no lock, above.
    Unknown,
    /// A number of a wrong form, or out of its range.
    BadNumber,
    /// A call that the lock's kind doesn't have.
    WrongKind,
    /// The line would pass a limit of tasks, locks, calls or picks.
    TooMany,
    /// The text ends before a `go` line.
    NoGo,
    /// Bytes after the `go` line.
    AfterGo,
}

/// Why a script couldn't be read.
#[derive(Clone, Copy, Debug, PartialEq, Eq)]
pub enum ScriptFault {
    /// The text is no script: the first line that is at fault, numbered from 1, and what is wrong
    /// with it.
    At { line: u32, why: Why },
    /// Memory ran out.
    Memory(NoMemory),
}
