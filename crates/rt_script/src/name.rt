ghost use Rattle.std.specs.Prelude.{◌≡◌, IfOk, string_bytes};
ghost use Rattle.std.specs.List.{list_all};
ghost use Rattle.rt_base.specs.Name.{is_name, is_name_byte};
ghost use Rattle.rt_script.specs.Building.{built_task_name, built_lock_name};

use rt_base::limits::MAX_NAME;
use std::alloc::{AllocError, Global};

/// Whether the word has the shape of a name.
pub(crate) fn is_name(word: &[u8]) -> bool
    ensures { result ≡ is_name word.now }
{
    !word.is_empty()
        && word.len() <= MAX_NAME
        && word[0].is_ascii_lowercase()
        && are_name_bytes(word)
}

/// Whether each byte may stand in a name.
fn are_name_bytes(word: &[u8]) -> bool
    ensures { result ≡ list_all is_name_byte word.now }
{
    word.iter().all(|b| is_name_byte(*b))
}

/// A letter a to z, a digit or `_`.
fn is_name_byte(b: u8) -> bool
    ensures { result ≡ is_name_byte b }
{
    b.is_ascii_lowercase() || b.is_ascii_digit() || b == b'_'
}

/// The name of task n of a script that is built.
pub(crate) fn task_name(alloc: Global, n: usize) -> Result<String, AllocError>
    ensures { IfOk result (λ name. string_bytes name ≡ built_task_name n) }
{
    format!(in alloc; "t{n}")
}

/// The name of lock n of a script that is built.
pub(crate) fn lock_name(alloc: Global, n: usize) -> Result<String, AllocError>
    ensures { IfOk result (λ name. string_bytes name ≡ built_lock_name n) }
{
    format!(in alloc; "k{n}")
}
