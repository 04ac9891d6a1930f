/// The reader part of a reader/writer lock, as the kernel's `rwbase_rt::readers`.
#[derive(Clone, Copy, Debug, PartialEq, Eq)]
pub struct ReaderCell {
    /// No writer is in, nor has one on its way removed the bias.
    pub bias: bool,
    /// A writer is in.
    pub writer: bool,
    /// How many readers are in.
    pub count: u32,
}
