/// How a run ended.
#[derive(Clone, Copy, Debug, PartialEq, Eq)]
pub enum Ended {
    /// All tasks are at the end of their calls.
    Done,
    /// No task has a next event, and some task isn't at the end of its calls.
    Stuck,
    /// Some task has a next event: the run was cut off.
    Limit,
}
