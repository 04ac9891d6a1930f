ghost use Rattle.std.specs.Prelude.{◌≡◌, ◌<◌, ◌↔◌, length, Some, IsTrue};
ghost use Rattle.rt_model.specs.State.{Shared, task_in};
ghost use Rattle.rt_model.specs.Path.{keeps_top, stands};
ghost use Rattle.rt_walk.specs.Link.{awaited, link_at};

use rt_base::{LockId, Path};

/// Whether link i of a path stands. It is told the lock on which the link's task is blocked, and
/// whether the task to which the link leads, that of the next one, or of the first one for the last,
/// keeps a top of the link's lock.
pub fn link(path: &Path, i: usize, blocked: Option<LockId>, kept: bool) -> bool
    requires { i < length path.now }
    ensures told { IsTrue result ↔ (blocked ≡ Some (link_at path.now i).lock) × IsTrue kept }
    ensures stands { (sh : Shared) → blocked ≡ awaited (task_in sh (link_at path.now i).from)
        → kept ≡ keeps_top (link_at path.now i).lock (task_in sh (link_at path.now i).to)
        → result ≡ stands sh (link_at path.now i) }
{
    kept && blocked == Some(path.at(i).1)
}
