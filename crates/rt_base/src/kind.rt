ghost use Rattle.std.specs.Prelude.{◌≡◌};
ghost use Rattle.rt_base.specs.Kind.{spins};

/// The five kinds of lock, each as PREEMPT_RT builds it.
#[derive(Clone, Copy, Debug, PartialEq, Eq)]
pub enum Kind {
    /// `struct mutex`, over an `rt_mutex`.
    Mutex,
    /// `spinlock_t`, which sleeps: an `rt_mutex` whose waiters keep their task state.
    Spin,
    /// `rwlock_t`, a reader/writer lock that sleeps and keeps the task state.
    RwLock,
    /// `struct rw_semaphore`.
    RwSem,
    /// `local_lock_t`: a `spinlock_t` for each processor.
    Local,
}

impl Kind {
    /// Whether this is a lock that spins without PREEMPT_RT. Its waiters are in the lock-wait state.
    pub fn spins(self) -> bool
        ensures { result ≡ spins self }
    {
        match self {
            Kind::Spin | Kind::RwLock | Kind::Local => true,
            Kind::Mutex | Kind::RwSem => false,
        }
    }
}
