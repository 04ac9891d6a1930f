ghost use Rattle.std.specs.Prelude.{◌≡◌, ◌↔◌, ◌<◌, length, None, IfSome};
ghost use Rattle.rt_base.specs.declared.limits.TheConstants.{MAX_LOCKS};
ghost use Rattle.rt_model.specs.Path.{Edge, IsCycle, first_task};
ghost use Rattle.rt_model.specs.Graph.{leads_to};
ghost use Rattle.rt_model.specs.laws.Lawful.{IsLawful};
ghost use Rattle.rt_laws.specs.Cycle.{IsOnNone};

use rt_base::{LockId, Path, TaskId};
use rt_core::Core;

/// The cycle that begins with a task: each of its tasks is blocked on a lock that the next one owns, and the
/// last one on a lock that the first one owns. There is none exactly where no cycle goes through the task; so
/// a task that only leads into one has none. It is told of the state as it stands, also while walks are
/// pending; at rest there is none at any task.
pub fn cycle_at(core: &Core, t: TaskId) -> Option<Path>
    requires { t.0 < length core.now.state.threads }
    ensures some { IfSome result (λ path. IsCycle core.now.state path × (first_task t path ≡ t)) }
    ensures none { result ≡ None ↔ IsOnNone core.now.state t }
{
    let mut path = Path::empty();
    let mut here = t;
    for _ in 0..core.tasks() {
        let Some((lock, owner)) = edge(core, here) else {
            return None;
        };
        path.push(here, lock);
        if owner == t {
            return Some(path);
        }
        here = owner;
    }
    None
}

// The edge from a task: the lock on which it is blocked, and that lock's owner.
fn edge(core: &Core, t: TaskId) -> Option<(LockId, TaskId)>
    requires task { t.0 < length core.now.state.threads }
    requires lawful { IsLawful core.now.state core.now.made }
    ensures some { IfSome result (λ e. Edge core.now.state (record { from = t; lock = e.0; to = e.1 })) }
    ensures lock { IfSome result (λ e. e.0.0 < MAX_LOCKS) }
    ensures owner { IfSome result (λ e. e.1.0 < length core.now.state.threads) }
    ensures none { result ≡ None → leads_to core.now.state t ≡ None }
{
    let (lock, _) = core.cell(t).blocked_at()?;
    let owner = core.lock(lock).owner()?;
    Some((lock, owner))
}
