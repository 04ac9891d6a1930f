ghost use Rattle.std.specs.Prelude.{◌≡◌};
ghost use Rattle.rt_top.specs.Status.{status_number, status_of};

use rt_base::Ended;

/// How a command ended.
#[derive(Clone, Copy, Debug, PartialEq, Eq)]
pub enum Status {
    /// All tasks are at the end of their calls, or the journal that was judged is a run's.
    Done,
    /// The words are none that the program takes.
    Usage,
    /// The input is no script.
    BadScript,
    /// No task has a next event, and some task isn't at the end of its calls.
    Stuck,
    /// So many events were made after the picks as may be, and some task has a next event.
    Limit,
    /// The source failed.
    ReadFault,
    /// The sink failed.
    WriteFault,
    /// Memory ran out.
    NoMemory,
    /// The input is longer than the command takes.
    TooLong,
    /// The journal isn't a run of its script.
    Illegal,
}

impl Status {
    /// The exit status of the program.
    pub fn number(self) -> u8
        ensures { result ≡ status_number self }
    {
        match self {
            Status::Done => 0,
            Status::Usage => 2,
            Status::BadScript => 3,
            Status::Stuck => 4,
            Status::Limit => 5,
            Status::ReadFault => 6,
            Status::WriteFault => 7,
            Status::NoMemory => 8,
            Status::TooLong => 9,
            Status::Illegal => 10,
        }
    }

    /// The status of a run that was printed whole.
    pub fn of_run(ended: Ended) -> Status
        ensures { result ≡ status_of ended }
    {
        match ended {
            Ended::Done => Status::Done,
            Ended::Stuck => Status::Stuck,
            Ended::Limit => Status::Limit,
        }
    }
}
