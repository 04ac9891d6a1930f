/// What a thread knows that it holds of one lock.
#[derive(Clone, Copy, Debug, PartialEq, Eq)]
pub struct Hold {
    /// It holds the lock, a reader/writer lock for writing.
    pub owns: bool,
    /// How many times it holds the lock for reading.
    pub reads: u32,
}
