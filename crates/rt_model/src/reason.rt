/// Why a task may take a lock that has no owner, as `try_to_take_rt_mutex` lets it.
#[derive(Clone, Copy, Debug, PartialEq, Eq)]
pub enum Reason {
    /// Nobody waits for it.
    Free,
    /// The task is the top waiter.
    Top,
    /// The task is better than the top waiter: it steals the lock.
    Better,
    /// The task is as good as the top waiter, of a normal priority, and the lock is of a spinning kind.
    Equal,
}
