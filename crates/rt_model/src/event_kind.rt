/// The kinds of atomic event. Each is one exchange of a lock's word, or one section under the gates
/// of the objects that it touches.
#[derive(Clone, Copy, Debug, PartialEq, Eq)]
pub enum EventKind {
    /// The fast acquire, `rt_mutex_cmpxchg_acquire`.
    Fast,
    /// The fast release, `rt_mutex_cmpxchg_release`.
    Free,
    /// `mark_rt_mutex_waiters`: the waiters bit is set before the owner is looked at.
    Mark,
    /// `try_to_take_rt_mutex` with success.
    Take,
    /// `task_blocks_on_rt_mutex`.
    Wait,
    /// One link of `rt_mutex_adjust_prio_chain`.
    Walk,
    /// The end of a chain walk at a task that isn't blocked.
    WalkEnd,
    /// A walk that came back to its own task finds a link broken, and begins again.
    Restart,
    /// A walk that came back to its own task finds each link standing: a deadlock.
    Cycle,
    /// A wakeup that came to nothing: the waiter sleeps again.
    Again,
    /// `remove_waiter` after a signal.
    Leave,
    /// `rt_mutex_slowunlock` with `mark_wakeup_next_waiter`.
    Give,
    /// A reader gets in, `rwbase_read_trylock`, and the slow path of `__rwbase_read_lock`.
    RIn,
    /// A reader gets out, `rwbase_read_unlock`.
    ROut,
    /// A writer removes the reader bias.
    Unbias,
    /// A writer that finds no reader left takes the lock.
    WTake,
    /// A writer that finds readers sleeps.
    WSleep,
    /// `__rwbase_write_unlock`.
    WOpen,
    /// The last reader wakes whoever owns the inner lock, `__rwbase_read_unlock`.
    WWake,
    /// A call that tries may not take the lock, or a reader finds it shut.
    Busy,
    /// `set_current_state`.
    State,
    /// `schedule` that returns.
    Sched,
    /// `try_to_wake_up`, or a signal's wakeup.
    Wake,
    /// `rt_mutex_adjust_pi` after a new priority.
    SetPrio,
    /// A call that is answered from what its own thread knows.
    Own,
}
