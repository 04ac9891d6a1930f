ghost use Rattle.std.specs.Prelude.{◌≡◌, ℕ, ◌≤◌, length, Option, Some, true, nat_lt};
ghost use Rattle.rt_base.specs.declared.id.TaskId.{TaskId};
ghost use Rattle.rt_base.specs.declared.reply.Reply.{Reply};
ghost use Rattle.rt_model.specs.Parts.{TaskPart};
ghost use Rattle.rt_model.specs.steps.Chain.{is_on_path, path_before, goes_on};
ghost use Rattle.rt_walk.specs.Next.{next_after, found, route_of, phase_of};

use rt_base::{Path, TaskId};

/// How a walk goes on from a link.
#[derive(Clone, Copy, Debug, PartialEq, Eq)]
pub enum Next {
    /// It ends.
    End,
    /// A full walk has come back to its own task: whether its path is a cycle is to be confirmed.
    Confirm,
    /// It stands at this task, and so many links of its path stay.
    To { task: TaskId, keep: usize },
}

/// How a walk goes on from a link: the part of `rt_mutex_adjust_prio_chain` that chooses the next task,
/// or stops. `walker` is whose walk it is. A full walk's path ends with the link. `next` is the owner of
/// the link's lock, whether that task is blocked, and whether the key with which it is queued is its
/// effective priority.
pub fn after(walker: TaskId, full: bool, path: &Path, next: Option<(TaskId, bool, bool)>) -> Next
    ensures told { result ≡ next_after walker full path.now next }
    ensures goes_on { (answer : Reply) (owner : Option TaskId) (task : TaskPart) → next ≡ found owner task
        → phase_of (route_of full path.now answer) result ≡ goes_on walker (route_of full path.now answer) owner task }
    ensures keep { (task : TaskId) (keep : ℕ) → result ≡ Next.To task keep
        → keep ≤ length path.now }
{
    match next {
        Some((task, true, right)) if full => along(walker, path, task, right),
        Some((task, true, false)) => Next::To {
            task,
            keep: path.len(),
        },
        _ => Next::End,
    }
}

// How a full walk goes on at a task that is blocked.
fn along(walker: TaskId, path: &Path, task: TaskId, right: bool) -> Next
    ensures { result ≡ next_after walker true path.now (Some (task, true, right)) }
{
    if task == walker {
        return Next::Confirm;
    }
    let keep = links_before(path, task);
    if right && keep < path.len() {
        Next::End
    } else {
        Next::To { task, keep }
    }
}

// How many links of a path stand before a task's own: all where it has none.
fn links_before(path: &Path, task: TaskId) -> usize
    ensures before { result ≡ length (path_before task path.now) }
    ensures on_path { nat_lt result (length path.now) ≡ is_on_path task path.now }
{
    if !is_on_path(path, task) {
        return path.len();
    }
    for i in 0..path.len() {
        if path.at(i).0 == task {
            return i;
        }
    }
    path.len()
}

// Whether a task is one of a path. Most aren't, so each link is looked at, which goes faster than to stop at
// the first that is.
fn is_on_path(path: &Path, task: TaskId) -> bool
    ensures { result ≡ is_on_path task path.now }
{
    let mut found = false;
    for i in 0..path.len() {
        found |= path.at(i).0 == task;
    }
    found
}
