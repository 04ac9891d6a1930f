// The graph priority, on states in which effective priorities aren't right yet, and in which a cycle stands.
use crate::Core;
use rt_base::TaskId;
use rt_script::read_script;
use std::alloc::Global;
use std::process::Abort;
use std::test::Fail;

// What a task's event leaves: the graph priorities of all tasks, and their effective ones.
type Left<const N: usize> = (u32, [u8; N], [u8; N]);

// The row chain. Where it is cut, the walk is to come by which the first task gets the last one's priority.
#[test]
fn of_a_chain(rt: HostRuntime) -> Result<(), Fail> {
    let text = b"rtscript 1\ntask a 90 0\ntask b 50 0\ntask c 10 0\nlock m1 mutex\nlock m2 mutex\n\
        call a lock m1\ncall a unlock m1\n\
        call b lock m2\ncall b lock m1\ncall b unlock m1\ncall b unlock m2\n\
        call c lock m2\ncall c unlock m2\ngo\n";
    let mut core = starts(&rt, rt.alloc(), text)?;
    let rows: [Left<3>; 13] = [
        (0, [90, 50, 10], [90, 50, 10]),
        (1, [90, 50, 10], [90, 50, 10]),
        (1, [90, 50, 10], [90, 50, 10]),
        (1, [50, 50, 10], [50, 50, 10]),
        (2, [50, 50, 10], [50, 50, 10]),
        (2, [10, 10, 10], [50, 10, 10]),
        (2, [10, 10, 10], [10, 10, 10]),
        (0, [90, 10, 10], [90, 10, 10]),
        (1, [90, 10, 10], [90, 10, 10]),
        (1, [90, 10, 10], [90, 10, 10]),
        (1, [90, 50, 10], [90, 50, 10]),
        (2, [90, 50, 10], [90, 50, 10]),
        (2, [90, 50, 10], [90, 50, 10]),
    ];
    for (t, graph, effective) in rows {
        plays(&rt, &mut core, TaskId(t))?;
        compare(&rt, &core, graph.as_slice(), effective.as_slice());
    }
    Ok(())
}

// Three tasks wait for each other, the fourth for one of them, and the fifth for nobody.
#[test]
fn of_a_cycle(rt: HostRuntime) -> Result<(), Fail> {
    let text = b"rtscript 1\ntask a 50 0\ntask b 40 0\ntask c 30 0\ntask d 10 0\ntask e 5 0\n\
        lock m mutex\nlock n mutex\nlock o mutex\n\
        call a lock m\ncall a lock n\ncall b lock n\ncall b lock o\n\
        call c lock o\ncall c lock m\ncall d lock o\ngo\n";
    let mut core = starts(&rt, rt.alloc(), text)?;
    let rows: [Left<5>; 14] = [
        (0, [50, 40, 30, 10, 5], [50, 40, 30, 10, 5]),
        (1, [50, 40, 30, 10, 5], [50, 40, 30, 10, 5]),
        (2, [50, 40, 30, 10, 5], [50, 40, 30, 10, 5]),
        (0, [50, 40, 30, 10, 5], [50, 40, 30, 10, 5]),
        (0, [50, 40, 30, 10, 5], [50, 40, 30, 10, 5]),
        (1, [50, 40, 30, 10, 5], [50, 40, 30, 10, 5]),
        (1, [50, 40, 30, 10, 5], [50, 40, 30, 10, 5]),
        (3, [50, 40, 30, 10, 5], [50, 40, 30, 10, 5]),
        (3, [50, 40, 10, 10, 5], [50, 40, 10, 10, 5]),
        (2, [50, 40, 10, 10, 5], [50, 40, 10, 10, 5]),
        // the cycle stands, and the walk along it is to come
        (2, [10, 10, 10, 10, 5], [10, 40, 10, 10, 5]),
        (2, [10, 10, 10, 10, 5], [10, 10, 10, 10, 5]),
        (2, [10, 10, 10, 10, 5], [10, 10, 10, 10, 5]),
        // it is left again, and the walk that takes priorities back is to come
        (2, [50, 40, 10, 10, 5], [50, 10, 10, 10, 5]),
    ];
    for (t, graph, effective) in rows {
        plays(&rt, &mut core, TaskId(t))?;
        compare(&rt, &core, graph.as_slice(), effective.as_slice());
    }
    Ok(())
}

// Eight tasks over seven mutexes, each but the first waiting for the one before it. While all walks are to
// come, the graph priorities are the best ones from each task on, and afterwards the effective ones are, too.
#[test]
fn of_eight_tasks(rt: HostRuntime) -> Result<(), Fail> {
    for (own, graph) in [
        ("90 80 70 60 50 40 30 20", [20, 20, 20, 20, 20, 20, 20, 20]),
        ("20 30 40 50 60 70 80 90", [20, 30, 40, 50, 60, 70, 80, 90]),
        ("60 25 70 10 80 30 90 40", [10, 10, 10, 10, 30, 30, 40, 40]),
        ("99 99 99 99 99 99 99 99", [99, 99, 99, 99, 99, 99, 99, 99]),
    ] {
        let mut core = chain_of_eight(&rt, rt.alloc(), own)?;
        has_graph(&rt, &core, graph.as_slice());
        walks_end(&rt, &mut core)?;
        compare(&rt, &core, graph.as_slice(), graph.as_slice());
    }
    Ok(())
}

// The chain with these own priorities, every walk of which is to come.
fn chain_of_eight(rt: &impl Abort, alloc: Global, own: &str) -> Result<Core, Fail> {
    let mut text = String::new(alloc);
    text.push_str("rtscript 1\n")?;
    for (name, prio) in "abcdefgh".chars().zip(own.split(' ')) {
        text.push_str(format!(in alloc; "task {name} {prio} 0\n")?.as_str())?;
    }
    text.push_str(
        "lock m mutex\nlock n mutex\nlock o mutex\nlock p mutex\nlock q mutex\nlock r mutex\nlock s mutex\n\
        call a lock m\ncall b lock n\ncall b lock m\ncall c lock o\ncall c lock n\ncall d lock p\n\
        call d lock o\ncall e lock q\ncall e lock p\ncall f lock r\ncall f lock q\ncall g lock s\n\
        call g lock r\ncall h lock s\ngo\n",
    )?;
    let mut core = starts(rt, alloc, text.as_bytes())?;
    for t in 0..7 {
        plays(rt, &mut core, TaskId(t))?;
    }
    for t in 1..8 {
        plays(rt, &mut core, TaskId(t))?;
        plays(rt, &mut core, TaskId(t))?;
    }
    Ok(core)
}

// Plays all walks to their ends.
fn walks_end(rt: &impl Abort, core: &mut Core) -> Result<(), Fail> {
    for _ in 0..64 {
        let Some(t) = core.lowest_walking() else {
            break
        };
        plays(rt, core, t)?;
    }
    assert_eq!(rt; core.walks(), 0);
    Ok(())
}

// The core of a script in its start state.
fn starts(rt: &impl Abort, alloc: Global, text: &[u8]) -> Result<Core, Fail> {
    assert!(rt; text.len() < 1000);
    let script = read_script(alloc, text)?;
    Ok(Core::new(alloc, &script)?)
}

// Makes the next event of a task.
fn plays(rt: &impl Abort, core: &mut Core, t: TaskId) -> Result<(), Fail> {
    assert!(rt; t.0 < core.tasks() && core.made() < 1000);
    let event = core.next(t).ok_or("no event")?;
    core.apply(&event);
    Ok(())
}

// Compares the graph priorities and the effective ones of all tasks.
fn compare(rt: &impl Abort, core: &Core, graph: &[u8], effective: &[u8]) {
    has_graph(rt, core, graph);
    assert_eq!(rt; effective.len(), core.tasks() as usize);
    for (i, want) in effective.iter().enumerate() {
        assert_eq!(rt; core.effective(TaskId(i as u32)).get(), *want);
    }
}

// Compares the graph priorities of all tasks.
fn has_graph(rt: &impl Abort, core: &Core, graph: &[u8]) {
    assert_eq!(rt; graph.len(), core.tasks() as usize);
    for (i, want) in graph.iter().enumerate() {
        assert_eq!(rt; core.graph_priority(TaskId(i as u32)).get(), *want);
    }
}
