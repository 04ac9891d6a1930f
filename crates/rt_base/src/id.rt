/// A task, numbered from 0 in the order of the script's task lines.
#[derive(Clone, Copy, Debug, PartialEq, Eq)]
pub struct TaskId(pub u32);

/// A lock, numbered from 0 in the order of the script's lock lines. A local lock takes one number
/// for each processor, as `DEFINE_PER_CPU` gives each processor a `local_lock_t` of its own.
#[derive(Clone, Copy, Debug, PartialEq, Eq)]
pub struct LockId(pub u32);

/// A processor, numbered from 0. It is only a number, by which a local lock selects its cell.
#[derive(Clone, Copy, Debug, PartialEq, Eq)]
pub struct Cpu(pub u8);
