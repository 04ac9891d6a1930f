// The graph priority of a task, over all tasks from which edges lead to it. Each task is sorted once into
// those that lead to it and those that don't, a round of edges at a time.
ghost use Rattle.std.specs.Prelude.{◌≡◌, ◌⊎◌, ℕ, ◌<◌, ◌≤◌, length, true, false, None, Some, IfSome, nat_eq};
ghost use Rattle.rt_base.specs.declared.id.TaskId.{TaskId as Task};
ghost use Rattle.rt_model.specs.State.{task_part};
ghost use Rattle.rt_model.specs.Graph.{leads_to, IsGraphPriority};
ghost use Rattle.rt_model.specs.Rounds.{AreKnown, IsRound};
ghost use Rattle.rt_model.specs.laws.Lawful.{IsLawful};
ghost use Rattle.rt_core.specs.TaskSet.{has};
ghost use Rattle.rt_core.specs.KnownSets.{set_of, in_either, in_any, is_in, IsLeastOwn};

use crate::Core;
use crate::task_set::TaskSet;
use rt_base::limits::MAX_TASKS;
use rt_base::{Prio, TaskId};

impl Core {
    /// A task's graph priority, the one that priority inheritance would give it if every effective priority
    /// were right at once: the best of its own and those of all tasks that wait for it, through however many
    /// locks, whether a cycle stands or not. Each task joins one round.
    pub fn graph_priority(&self, t: TaskId) -> Prio
        requires { t.0 < length self.now.state.threads }
        ensures graph { IsGraphPriority self.now.state t result }
    {
        let known = all_known(self, t);
        least_own(self, t, &known.near)
    }
}

// What is known of tasks: those that lead to one, or are it, are near, and those that don't are far.
#[derive(Drop)]
struct Known {
    near: TaskSet,
    far: TaskSet,
}

// The tasks of a round, and the one that it has come to, where the last edge led to one.
#[derive(Drop)]
struct Round {
    tasks: TaskSet,
    here: Option<TaskId>,
}

// What is known in the end.
fn all_known(core: &Core, t: TaskId) -> Known
    requires { t.0 < length core.now.state.threads }
    ensures known { AreKnown core.now.state t (set_of result.near) (set_of result.far) }
    ensures all { (u : ℕ) → u < length core.now.state.threads → in_either result.near result.far u ≡ true }
    ensures lawful { IsLawful core.now.state core.now.made }
{
    let tasks = core.tasks();
    let mut known = Known::new(t);
    for u in 0..tasks {
        known.look_at(core, TaskId(u));
    }
    known
}

impl Known {
    // A task leads to itself, and nothing more is known.
    fn new(t: TaskId) -> Known
        requires { t.0 < MAX_TASKS }
        ensures near { (u : ℕ) → u < MAX_TASKS → has result.near u ≡ nat_eq t.0 u }
        ensures far { (u : ℕ) → has result.far u ≡ false }
    {
        let mut near = TaskSet::empty();
        near.add(t);
        Known {
            near,
            far: TaskSet::empty(),
        }
    }

    // Whether a task is known to be near, or to be far.
    fn has(&self, u: TaskId) -> bool
        requires { u.0 < MAX_TASKS }
        ensures { result ≡ in_either self.now.near self.now.far u.0 }
    {
        self.near.contains(u) || self.far.contains(u)
    }

    // Looks at where a task leads, so that it is known, and with it its round.
    fn look_at(&mut self, core: &Core, u: TaskId)
        requires task { u.0 < length core.now.state.threads }
        requires lawful { IsLawful core.now.state core.now.made }
        ensures known { (t : Task) → t.0 < length core.now.state.tasks
            → AreKnown core.now.state t (set_of self.old.near) (set_of self.old.far)
            → AreKnown core.now.state t (set_of self.new.near) (set_of self.new.far) }
        ensures first { in_either self.new.near self.new.far u.0 ≡ true }
        ensures kept { (v : ℕ) → in_either self.old.near self.old.far v ≡ true
            → in_either self.new.near self.new.far v ≡ true }
    {
        let round = round_from(core, self, u);
        if self.is_near(round.here) {
            self.near.join(&round.tasks);
        } else {
            self.far.join(&round.tasks);
        }
    }

    // Whether a task is here that is near.
    fn is_near(&self, here: Option<TaskId>) -> bool
        requires { IfSome here (λ w. w.0 < MAX_TASKS) }
        ensures { result ≡ is_in self.now.near here }
    {
        match here {
            Some(w) => self.near.contains(w),
            None => false,
        }
    }
}

// Follows edges from a task, up to one that is known or of the round, or one without an edge.
fn round_from(core: &Core, known: &Known, u: TaskId) -> Round
    requires task { u.0 < length core.now.state.threads }
    requires lawful { IsLawful core.now.state core.now.made }
    ensures round { (t : Task) → t.0 < length core.now.state.tasks → has known.now.near t.0 ≡ true
        → IsRound core.now.state t (set_of result.tasks) result.here }
    ensures within { IfSome result.here (λ w. w.0 < length core.now.state.threads) }
    ensures end { IfSome result.here (λ w. in_any known.now.near known.now.far result.tasks w.0 ≡ true) }
    ensures first { in_any known.now.near known.now.far result.tasks u.0 ≡ true }
{
    let mut round = Round {
        tasks: TaskSet::empty(),
        here: Some(u),
    };
    'edges: while let Some(w) = round.next(known) {
        round.tasks.add(w);
        round.here = leads_to(core, w);
    }
    round
}

impl Round {
    // The task that it has come to, where that is neither known nor of the round.
    fn next(&self, known: &Known) -> Option<TaskId>
        requires { IfSome self.now.here (λ w. w.0 < MAX_TASKS) }
        ensures here { IfSome result (λ w. self.now.here ≡ Some w) }
        ensures new { IfSome result (λ w. in_any known.now.near known.now.far self.now.tasks w.0 ≡ false) }
        ensures end { result ≡ None
            → IfSome self.now.here (λ w. in_any known.now.near known.now.far self.now.tasks w.0 ≡ true) }
    {
        let Some(w) = self.here else { return None };
        if known.has(w) || self.tasks.contains(w) {
            None
        } else {
            Some(w)
        }
    }
}

// The task to which an edge leads from a task: the owner of the lock for which it waits.
fn leads_to(core: &Core, t: TaskId) -> Option<TaskId>
    requires task { t.0 < length core.now.state.threads }
    requires lawful { IsLawful core.now.state core.now.made }
    ensures leads { result ≡ leads_to core.now.state t }
    ensures within { IfSome result (λ u. u.0 < length core.now.state.threads) }
{
    match core.cell(t).blocked() {
        Some(l) => core.lock(l).owner(),
        None => None,
    }
}

// The least own priority of the tasks of a set. The task is one of them.
fn least_own(core: &Core, t: TaskId, near: &TaskSet) -> Prio
    requires lawful { IsLawful core.now.state core.now.made }
    requires task { t.0 < length core.now.state.threads }
    requires near { has near.now t.0 ≡ true }
    ensures { IsLeastOwn core.now.state near.now (length core.now.state.threads) result }
{
    let mut best = core.cell(t).own();
    for u in 0..core.tasks() {
        best = better(core, best, near, TaskId(u));
    }
    best
}

// The better of a priority and that of a task, where it is in the set.
fn better(core: &Core, best: Prio, near: &TaskSet, u: TaskId) -> Prio
    requires lawful { IsLawful core.now.state core.now.made }
    requires task { u.0 < length core.now.state.threads }
    ensures best { result ≤ best }
    ensures below { has near.now u.0 ≡ true → result ≤ (task_part core.now.state u).own }
    ensures one { (result ≡ best)
        ⊎ ((has near.now u.0 ≡ true) × (result ≡ (task_part core.now.state u).own)) }
{
    let own = core.cell(u).own();
    if near.contains(u) && own < best {
        own
    } else {
        best
    }
}
