// What is asked of a state, through public calls alone.
ghost use Rattle.rt_model.specs.laws.Shape.{IsOf};

use crate::laws_tests::walking;
use crate::random_tests::told::Told;
use crate::{at_rest, cycle_at};
use rt_base::{LockId, TaskId, TaskState};
use rt_core::{Core, Note};
use rt_script::Script;
use std::process::Abort;

/// Asks of each lock and each task.
pub fn ask(rt: &impl Abort, script: &Script, core: &Core, told: &Told)
    requires { IsOf script.now core.now.state }
{
    for l in 0..script.locks() {
        ask_holders(rt, script, core, told, LockId(l));
        ask_top(rt, script, core, told, LockId(l));
    }
    let walks = walking(rt, core);
    assert!(rt; core.walks() == walks && at_rest(core) == (walks == 0));
    for t in 0..core.tasks() {
        ask_task(rt, script, core, told, TaskId(t));
    }
}

// A lock's owner, writer and readers are those of whom the events tell, and no reader is in beside a writer.
fn ask_holders(rt: &impl Abort, script: &Script, core: &Core, told: &Told, l: LockId)
    requires { IsOf script.now core.now.state }
{
    assert!(rt; l.0 < script.locks());
    let (number, held) = (told.number(), told.held(l));
    let readers = core.readers(l);
    assert_eq!(rt; core.lock(l).owner(), held.owner(), "script {number}");
    assert_eq!(rt; readers.writer, held.writer(), "script {number}");
    assert_eq!(rt; readers.count as i32, held.readers(), "script {number}");
    assert!(rt; !readers.writer || readers.count == 0, "script {number}");
    if let Some(owner) = held.owner() {
        ask_processor(rt, script, told, l, owner);
    }
}

// Who holds a cell of a local lock, or waits for it, is on its processor.
fn ask_processor(rt: &impl Abort, script: &Script, told: &Told, l: LockId, t: TaskId) {
    assert!(rt; l.0 < script.locks());
    let (number, cell) = (told.number(), script.cell_of(l));
    assert!(rt; cell.is_none() || cell == told.cpu(t), "script {number}");
}

// A lock's owner keeps its top waiter's key. Where there is no owner, the top waiter runs.
fn ask_top(rt: &impl Abort, script: &Script, core: &Core, told: &Told, l: LockId)
    requires { IsOf script.now core.now.state }
{
    assert!(rt; l.0 < script.locks());
    let (number, lock) = (told.number(), core.lock(l));
    if let Some(owner) = lock.owner() {
        assert_eq!(rt; core.cell(owner).kept(l), lock.top_key(), "script {number}");
    } else if let Some(top) = lock.top_task() {
        assert!(rt; top.0 < core.tasks());
        assert_eq!(rt;
            core.cell(top).state(),
            TaskState::Running,
            "script {number}"
        );
    }
}

// A task has a next event where it is told to have one, and a row where it is told to wait. Its priority is no
// worse than its own, and at rest that of the graph, with no cycle at it.
fn ask_task(rt: &impl Abort, script: &Script, core: &Core, told: &Told, t: TaskId)
    requires { IsOf script.now core.now.state }
{
    assert!(rt; t.0 < core.tasks());
    let number = told.number();
    assert_eq!(rt;
        core.next(t).is_some(),
        core.is_enabled(t),
        "script {number}"
    );
    assert!(rt; core.effective(t) <= core.cell(t).own(), "script {number}");
    if let Some((l, key)) = core.cell(t).blocked_at() {
        assert!(rt; l.0 < script.locks());
        assert_eq!(rt; core.lock(l).key_of(t), Some(key), "script {number}");
        ask_processor(rt, script, told, l, t);
    }
    if at_rest(core) {
        assert_eq!(rt;
            core.effective(t),
            core.graph_priority(t),
            "script {number}"
        );
        assert!(rt; cycle_at(core, t).is_none(), "script {number}");
    }
}

/// Asks at the end: a lock for which a task waits has an owner, or readers where it waits for these.
pub fn ask_at_end(rt: &impl Abort, script: &Script, core: &Core, told: &Told)
    requires { IsOf script.now core.now.state }
{
    assert!(rt; core.done() || core.stuck());
    for t in 0..core.tasks() {
        ask_waiter(rt, script, core, told, core.note(TaskId(t)));
    }
}

// A lock for which a task is noted to wait isn't free.
fn ask_waiter(rt: &impl Abort, script: &Script, core: &Core, told: &Told, note: Note)
    requires { IsOf script.now core.now.state }
{
    let number = told.number();
    match note {
        Note::Lock(l, _) => {
            assert!(rt; l.0 < script.locks());
            assert!(rt; core.lock(l).owner().is_some(), "script {number}");
        }
        Note::Readers(l) => {
            assert!(rt; l.0 < script.locks());
            assert!(rt; core.readers(l).count > 0, "script {number}");
        }
        Note::Walk(_) | Note::Confirm | Note::Ready => panic!(rt; "script {number}"),
        Note::Wake | Note::End => {}
    }
}
