// The first link of a path, from its first task to the next one.
ghost use Rattle.std.specs.Prelude.{◌≡◌};
ghost use Rattle.rt_model.specs.Path.{first_lock, first_owner};

use rt_base::{LockId, Path, TaskId};

/// The lock of a path's first link.
pub fn first_lock(path: &Path) -> Option<LockId>
    ensures { result ≡ first_lock path.now }
{
    if path.len() == 0 {
        return None;
    }
    Some(path.at(0).1)
}

/// The task to which a path's first link leads: that of the second link, or of the first one itself
/// where there is no other. In a cycle it is the owner of the first link's lock.
pub fn first_owner(path: &Path) -> Option<TaskId>
    ensures { result ≡ first_owner path.now }
{
    match path.len() {
        0 => None,
        1 => Some(path.at(0).0),
        _ => Some(path.at(1).0),
    }
}
