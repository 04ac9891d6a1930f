// Scripts at their limits, and past them.
use super::fault_tests::refuses;
use super::*;
use std::alloc::Global;
use std::test::Fail;

// Two tasks and a mutex, a line so many times, and another line.
fn repeated(alloc: Global, line: &str, times: u32, last: &str) -> Result<String, Fail> {
    let mut text = format!(in alloc; "rtscript 1\ntask a 5 0\ntask b 5 0\nlock m mutex\n")?;
    for _i in 0..times {
        text.push_str(line)?;
    }
    text.push_str(last)?;
    text.push_str("go\n")?;
    Ok(text)
}

#[test]
fn most_calls_and_most_picks(rt: HostRuntime) -> Result<(), Fail> {
    let calls = repeated(rt.alloc(), "call a schedule\n", 16_384, "pick b\n")?;
    let picks = repeated(rt.alloc(), "pick a\n", 65_536, "call b schedule\n")?;
    assert!(rt; calls.len() < 1_000_000 && picks.len() < 1_000_000);
    assert_eq!(rt;
        read_script(rt.alloc(), calls.as_bytes())?.all_calls(),
        16_384
    );
    assert_eq!(rt;
        read_script(rt.alloc(), picks.as_bytes())?.picks().len(),
        65_536
    );
    Ok(())
}

#[test]
fn one_call_or_pick_more(rt: HostRuntime) -> Result<(), Fail> {
    for (last, why) in [
        ("call b schedule\n", Why::TooMany),
        ("call zz schedule\n", Why::Unknown),
        ("call a spin m\n", Why::WrongKind),
    ] {
        let text = repeated(rt.alloc(), "call a schedule\n", 16_384, last)?;
        refuses(&rt, rt.alloc(), text.as_bytes(), 16_389, why);
    }
    let text = repeated(rt.alloc(), "pick a\n", 65_536, "pick b\n")?;
    refuses(&rt, rt.alloc(), text.as_bytes(), 65_541, Why::TooMany);
    Ok(())
}

// A header, so many tasks, and this line.
fn tasks_text(alloc: Global, tasks: u32, line: &str) -> Result<String, Fail> {
    let mut text = format!(in alloc; "rtscript 1\ncpus 8\n")?;
    for i in 0..tasks {
        let line = format!(in alloc; "task t{i} 50 0\n")?;
        text.push_str(&line)?;
    }
    text.push_str(line)?;
    text.push_str("\ngo\n")?;
    Ok(text)
}

#[test]
fn at_most_64_tasks(rt: HostRuntime) -> Result<(), Fail> {
    let most = tasks_text(rt.alloc(), 63, "task u 5 7")?;
    let over = tasks_text(rt.alloc(), 64, "task u 5 7")?;
    assert!(rt; most.len() < 2000 && over.len() < 2000);
    assert_eq!(rt; read_script(rt.alloc(), most.as_bytes())?.tasks(), 64);
    refuses(&rt, rt.alloc(), over.as_bytes(), 67, Why::TooMany);
    // The tests before that of the limits go first.
    let twice = tasks_text(rt.alloc(), 64, "task t0 5 0")?;
    refuses(&rt, rt.alloc(), twice.as_bytes(), 67, Why::NameTwice);
    Ok(())
}

// A header of 8 processors, so many local locks, and this line.
fn locals_text(alloc: Global, locks: u32, line: &str) -> Result<String, Fail> {
    let mut text = format!(in alloc; "rtscript 1\ncpus 8\n")?;
    for i in 0..locks {
        let line = format!(in alloc; "lock k{i} local\n")?;
        text.push_str(&line)?;
    }
    text.push_str(line)?;
    text.push_str("\ngo\n")?;
    Ok(text)
}

#[test]
fn a_local_lock_counts_for_each_processor(rt: HostRuntime) -> Result<(), Fail> {
    let most = locals_text(rt.alloc(), 31, "lock l local")?;
    let one_over = locals_text(rt.alloc(), 32, "lock m mutex")?;
    let over = locals_text(rt.alloc(), 32, "lock l local")?;
    assert!(rt; most.len() < 2000 && one_over.len() < 2000 && over.len() < 2000);
    assert_eq!(rt; read_script(rt.alloc(), most.as_bytes())?.locks(), 256);
    refuses(&rt, rt.alloc(), one_over.as_bytes(), 35, Why::TooMany);
    refuses(&rt, rt.alloc(), over.as_bytes(), 35, Why::TooMany);
    Ok(())
}
