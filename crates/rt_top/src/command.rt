ghost use Rattle.std.specs.Prelude.{◌≡◌, ◌↔◌, codes, option_map, Some, IfOk, IfErr, IsTrue};
ghost use Rattle.clap.specs.Words.{first_value, found_of, kind_of, one_text};
ghost use Rattle.rt_top.specs.Words.{IsAccepted, IsSaid, bytes_of, command_of};

use crate::options::Options;
use crate::purpose::Purpose;
use clap::error::ErrorKind;
use clap::{Arg, ArgMatches, Error};
use rt_base::NoMemory;
use std::alloc::Global;

/// What the words ask for.
#[derive(Clone, Copy, Debug, PartialEq, Eq)]
pub enum Command {
    /// An input is to be read, for that.
    Read(Purpose),
    /// The script that the generator makes of a number is to be replayed, and its events counted.
    Gen(u32, Options),
}

// The words as `clap` reads them.
fn matches<'a>(alloc: Global, words: &'a [String]) -> Result<ArgMatches<'a>, Error>
    requires { IsAccepted (bytes_of words.now) }
    ensures said { IfOk result (λ found.
        IsSaid (first_value (found_of found) (codes "command")) (one_text (found_of found) (codes "number"))
        (one_text (found_of found) (codes "turns")) (command_of (bytes_of words.now))) }
    ensures err { IfErr result (λ e. kind_of e ≡ ErrorKind.OutOfMemory) }
{
    let command = Arg::new(alloc, "command").required(true);
    let number = Arg::new(alloc, "number");
    let turns = Arg::new(alloc, "turns").long("turns");
    let patience = Arg::new(alloc, "patience").long("patience");
    clap::Command::new(alloc, "rtlab")
        .no_binary_name(true)
        .arg(command)?
        .arg(number)?
        .arg(turns)?
        .arg(patience)?
        .try_get_matches_from(words)
}

// Whether `check` has that name.
fn is_check(name: Option<&str>) -> bool
    ensures { IsTrue result ↔ (option_map (λ name. name.now) name.entry ≡ Some (codes "check")) }
{
    match name {
        Some(name) => name == "check",
        None => false,
    }
}

/// What the words ask for, read by `clap`.
pub fn command_in(alloc: Global, words: &[String]) -> Result<Command, NoMemory>
    requires { IsAccepted (bytes_of words.now) }
    ensures { IfOk result (λ command. command_of (bytes_of words.now) ≡ Some command) }
{
    let Ok(found) = matches(alloc, words) else {
        return Err(NoMemory);
    };
    if is_check(found.get_str("command")) {
        return Ok(Command::Read(Purpose::Check));
    }
    let options = Options {
        turns: found.get_one("turns"),
    };
    match found.get_one("number") {
        Some(number) => Ok(Command::Gen(number, options)),
        None => Ok(Command::Read(Purpose::Replay(options))),
    }
}
