use crate::{Cpu, LockId, Prio, TaskId, TaskState};

/// A call of a task. Where it names a local lock, that is the cell of processor 0, and the cell
/// of processor k has that number plus k.
#[derive(Clone, Copy, Debug, PartialEq, Eq)]
pub enum Call {
    /// `mutex_lock`
    Lock(LockId),
    /// `mutex_lock_interruptible`
    LockInt(LockId),
    /// `mutex_trylock`
    TryLock(LockId),
    /// `mutex_unlock`
    Unlock(LockId),
    /// `spin_lock`
    Spin(LockId),
    /// `spin_trylock`
    TrySpin(LockId),
    /// `spin_unlock`
    Unspin(LockId),
    /// `read_lock` and `down_read`
    Read(LockId),
    /// `read_trylock` and `down_read_trylock`
    TryRead(LockId),
    /// `read_unlock` and `up_read`
    Unread(LockId),
    /// `write_lock` and `down_write`
    Write(LockId),
    /// `write_trylock` and `down_write_trylock`
    TryWrite(LockId),
    /// `write_unlock` and `up_write`
    Unwrite(LockId),
    /// `downgrade_write`
    Downgrade(LockId),
    /// `local_lock`
    Local(LockId),
    /// `local_unlock`
    Unlocal(LockId),
    /// `set_current_state`
    State(TaskState),
    /// `schedule`
    Schedule,
    /// `wake_up_process`
    Wake(TaskId),
    /// `send_sig`, as far as it wakes
    Signal(TaskId),
    /// `sched_setscheduler`, as far as it sets a priority
    SetPrio(TaskId, Prio),
    /// `set_cpus_allowed_ptr` to one processor
    Move(Cpu),
}
