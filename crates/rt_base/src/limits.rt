//! How much a script may have, and how long its texts are.

/// The most tasks.
pub const MAX_TASKS: usize = 64;

/// The most locks, a local lock counting once for each processor.
pub const MAX_LOCKS: usize = 256;

/// The most calls of all tasks together.
pub const MAX_CALLS: u32 = 16384;

/// The most picks.
pub const MAX_PICKS: usize = 65536;

/// The most links of a path: a walk along a chain of locks names each task once.
pub const MAX_LINKS: usize = MAX_TASKS;

/// The worst priority, nice 19: least is best.
pub const MAX_PRIO: u8 = 139;

/// The worst real-time priority: those above are normal.
pub const MAX_REALTIME: u8 = 99;

/// The most processors.
pub const MAX_CPUS: u8 = 8;

/// The greatest processor.
pub const MAX_CPU: u8 = MAX_CPUS - 1;

/// The most characters of a name.
pub const MAX_NAME: usize = 16;

/// The factor of the budget of events, which grows as the tasks and as their calls.
pub const BUDGET_FACTOR: u64 = 16;

/// A text is shorter, in bytes, so that its lines can be numbered.
pub const TEXT_LIMIT: u32 = 4_294_967_295;

/// A line of a journal or a report, with its line feed, is shorter, in bytes.
pub const LINE_LIMIT: usize = 4096;
