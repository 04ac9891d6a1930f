// What a walk does to its thread.
ghost use Rattle.std.specs.Prelude.{◌≡◌, ◌<◌, length, Option, None, Some};
ghost use Rattle.rt_base.specs.declared.id.TaskId.{TaskId};
ghost use Rattle.rt_model.specs.declared.phase.Phase.TheVariants.{Walk};
ghost use Rattle.rt_model.specs.declared.phase.Route.TheVariants.{Full};
ghost use Rattle.rt_model.specs.Parts.{TaskPart};
ghost use Rattle.rt_model.specs.steps.Chain.{followed, goes_on};
ghost use Rattle.rt_model.specs.events.Walk.{phase_after_link, phase_after_end};
ghost use Rattle.rt_walk.specs.Next.{found};
ghost use Rattle.rt_parts.specs.Links.{HasRoom, walk_to, phase_told};
ghost use Rattle.rt_parts.specs.Steps.{with_phase};

use crate::thread::Thread;
use rt_base::limits::MAX_LOCKS;
use rt_base::{LockId, Path, TaskId};
use rt_model::{Phase, Route};
use rt_walk::{Next, after};

impl Thread {
    /// Its walk, of this task, leaves a lock, and goes on at the lock's owner, is to be confirmed, or ends.
    /// `next` is what it finds of the owner: who that is, whether it is blocked, and whether its key is
    /// right.
    pub fn follow(&mut self, t: TaskId, l: LockId, next: Option<(TaskId, bool, bool)>)
        requires lock { l.0 < length self.old.kinds }
        requires room { HasRoom self.old.phase }
        ensures { (owner : Option TaskId) (task : TaskPart) → next ≡ found owner task
            → self.new ≡ with_phase self.old (phase_after_link t (Some l) owner task self.old.phase) }
    {
        let Phase::Walk(cursor, route) = &mut self.phase else {
            return;
        };
        let next = follow_route(route, t, *cursor, l, next);
        self.go_on(next);
    }

    // Its walk, whose route has the link that it made, goes on so.
    fn go_on(&mut self, next: Next)
        ensures { self.new ≡ with_phase self.old (phase_told next self.old.phase) }
    {
        match (next, &mut self.phase) {
            (Next::To { task, .. }, Phase::Walk(cursor, _)) => *cursor = task,
            (Next::Confirm, Phase::Walk(_, Route::Full(path))) => {
                self.phase = Phase::Confirm(*path)
            }
            _ => self.end_walk(),
        }
    }

    /// Its walk ends: a full one leaves it waiting, and the answer of a short one ends its call.
    pub fn end_walk(&mut self)
        ensures { self.new ≡ with_phase self.old (phase_after_end self.old.phase) }
    {
        if let Phase::Walk(..) = self.phase {
            self.phase = Phase::Wait;
        }
    }
}

// How a walk goes on that leaves this lock, with its route after that.
fn follow_route(
    route: &mut Route,
    t: TaskId,
    cursor: TaskId,
    l: LockId,
    next: Option<(TaskId, bool, bool)>,
) -> Next
    requires lock { l.0 < MAX_LOCKS }
    requires room { HasRoom (Walk cursor route.old) }
    ensures next { (owner : Option TaskId) (task : TaskPart) → next ≡ found owner task
        → walk_to route.new result ≡ goes_on t (followed cursor l route.old) owner task }
{
    let Route::Full(path) = route else {
        return after(t, false, &Path::empty(), next);
    };
    path.push(cursor, l);
    follow_path(path, t, next)
}

// How a full walk goes on, whose path is cut before the task at which it does so.
fn follow_path(path: &mut Path, t: TaskId, next: Option<(TaskId, bool, bool)>) -> Next
    ensures { (owner : Option TaskId) (task : TaskPart) → next ≡ found owner task
        → walk_to (Full path.new) result ≡ goes_on t (Full path.old) owner task }
{
    let next = after(t, true, path, next);
    match next {
        Next::To { keep, .. } if keep < path.len() => path.cut(keep),
        _ => {}
    }
    next
}
