ghost use Rattle.std.specs.Prelude.{◌≡◌};
ghost use Rattle.rt_check.specs.Why.{why_number};

/// What is wrong with a line.
#[derive(Clone, Copy, Debug, PartialEq, Eq)]
pub(crate) enum Why {
    /// No such line may stand there.
    NoLine,
    /// It tells an event that isn't the next one of its task, or isn't numbered so.
    OtherEvent,
    /// It tells another end than the state's.
    OtherEnd,
    /// It tells another report than the state's.
    OtherReport,
}

impl Why {
    /// The number by which callers are told.
    pub(crate) fn number(self) -> u8
        ensures { result ≡ why_number self }
    {
        match self {
            Why::NoLine => 1,
            Why::OtherEvent => 2,
            Why::OtherEnd => 3,
            Why::OtherReport => 4,
        }
    }
}

/// A wrong line, by its number, and what is wrong with it.
#[derive(Clone, Copy, Debug, PartialEq, Eq)]
pub(crate) struct Wrong {
    pub line: u32,
    pub why: Why,
}
