use rt_base::TaskId;

/// How far a replay has come: how many events were made, and who moved last.
#[derive(Clone, Copy, Debug, PartialEq, Eq)]
pub struct Progress {
    /// How many events were made.
    pub count: u64,
    /// Who made the last of them.
    pub last: Option<TaskId>,
}
