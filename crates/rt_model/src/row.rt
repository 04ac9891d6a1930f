/// A task in a lock's queue, as the kernel's `rt_mutex_waiter`.
#[derive(Clone, Copy, Debug, PartialEq, Eq)]
pub struct Row {
    /// The priority that it is queued with: least first.
    pub key: u64,
    /// Drawn when it was queued: among equal keys least first.
    pub ticket: u64,
    /// The task's number.
    pub who: u32,
}
