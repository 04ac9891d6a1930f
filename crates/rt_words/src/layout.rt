//! Where the fields of a word lie, each from its first bit on, and how great they may be. An owner is at
//! most the last task and a count at most the number of calls, by the limits of a script.

/// The bit of an owner word that says that there are waiters, `RT_MUTEX_HAS_WAITERS`.
pub const WAITERS_AT: u32 = 0;

/// The first bit of an owner word's owner, which is its number plus one, or 0 where there is none.
pub const OWNER_AT: u32 = 1;

/// The bits that an owner has.
pub const OWNER_BITS: u32 = 20;

/// The bit of a reader word that lets readers in at once, the kernel's `READER_BIAS`.
pub const BIAS_AT: u32 = 0;

/// The bit of a reader word that says that a writer is in, the kernel's `WRITER_BIAS`.
pub const WRITER_AT: u32 = 1;

/// The first bit of a reader word's count of readers.
pub const COUNT_AT: u32 = 2;

/// The bits that a count has.
pub const COUNT_BITS: u32 = 19;

/// The first bit of either word's stamp.
pub const STAMP_AT: u32 = 21;

/// A stamp is less.
pub const STAMP_LIMIT: u64 = 1 << 40;
