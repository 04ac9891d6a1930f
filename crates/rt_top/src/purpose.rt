ghost use Rattle.std.specs.Prelude.{◌≡◌};
ghost use Rattle.rt_top.specs.Words.{most_bytes};

use crate::options::Options;

/// The longest script, in bytes.
const MAX_BYTES: u32 = 1_048_576;

/// The longest script with a journal behind it, in bytes.
const MAX_CHECK_BYTES: u32 = 67_108_864;

/// What an input is read for.
#[derive(Clone, Copy, Debug, PartialEq, Eq)]
pub enum Purpose {
    /// A script is to be replayed.
    Replay(Options),
    /// A journal is to be judged by the script before it.
    Check,
}

impl Purpose {
    /// The longest input that is taken, in bytes.
    pub fn most_bytes(self) -> u32
        ensures { result ≡ most_bytes self }
    {
        match self {
            Purpose::Replay(_) => MAX_BYTES,
            Purpose::Check => MAX_CHECK_BYTES,
        }
    }
}
