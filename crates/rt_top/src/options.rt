ghost use Rattle.std.specs.Prelude.{◌≡◌, ◌≤◌};
ghost use Rattle.rt_base.specs.Script.{IsScript};
ghost use Rattle.rt_top.specs.Answer.{turns_of};

use rt_script::Script;

/// The greatest number that `--turns` takes.
pub const MAX_TURNS: u32 = u32::MAX;

/// The greatest number that `gen` takes.
pub const MAX_SEED: u32 = u32::MAX;

/// The options of a command.
#[derive(Clone, Copy, Debug, PartialEq, Eq)]
pub struct Options {
    /// How many events are made by the stated order at most, where the words say so.
    pub turns: Option<u32>,
}

/// How many events are made after the picks at most.
pub fn turns(options: Options, script: &Script) -> u64
    requires { IsScript script.now }
    ensures value { result ≡ turns_of options script.now }
    ensures few { result ≤ MAX_TURNS }
{
    match options.turns {
        Some(turns) => turns as u64,
        None => script.budget(),
    }
}
