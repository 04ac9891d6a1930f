// Texts that are no scripts: the first fault, and its line.
use super::*;
use std::alloc::Global;
use std::process::Abort;
use std::test::Fail;

// A text is refused in this line, with this cause.
pub(crate) fn refuses<R: Abort>(rt: &R, alloc: Global, text: &[u8], line: u32, why: Why) {
    assert!(rt; text.len() < 1_000_000);
    let Err(fault) = read_script(alloc, text) else {
        panic!(rt; "read");
    };
    assert_eq!(rt; fault, ScriptFault::At { line, why });
}

#[test]
fn faults_of_the_text(rt: HostRuntime) {
    for (text, line, why) in [
        ("", 1, Why::BadHeader),
        ("\n", 1, Why::BadHeader),
        ("rtscript 2\ngo\n", 1, Why::BadHeader),
        ("rtscript 1 \ngo\n", 1, Why::BadHeader),
        ("# rtscript 1\ngo\n", 1, Why::BadHeader),
        ("rtscript\t1\ngo\n", 1, Why::NotAscii),
        ("rtscript 12\ngo\n", 1, Why::BadHeader),
        ("\nrtscript 1\ngo\n", 1, Why::BadHeader),
        ("rtscript 1\nrtscript 1\ngo\n", 2, Why::BadLine),
        ("rtscript 1\ng", 2, Why::BadLine),
        ("rtscript 1\ngo\r\n", 2, Why::NotAscii),
        ("rtscript 1\nx\n\x7f\ngo\n", 2, Why::BadLine),
        ("rtscript 1\ncpus 2\ncpus 2\ngo\n", 3, Why::BadLine),
        ("rtscript 1\ncpus 2\n\n# c\ncpus 9\ngo\n", 5, Why::BadLine),
        (
            "rtscript 1\ncpus 2\ntask a 5 1\ntask b 5 2\ngo\n",
            4,
            Why::BadNumber,
        ),
        ("rtscript 1\npick a\ntask a 5 0\ngo\n", 2, Why::Unknown),
        ("rtscript 1\ntask a 5 0\npick b", 3, Why::Unknown),
        ("rtscript 1", 2, Why::NoGo),
        ("rtscript 1\n", 2, Why::NoGo),
        ("rtscript 1\n\n# go\ntask a 5 0\n", 5, Why::NoGo),
        ("rtscript 1\ntask a 5 0", 3, Why::NoGo),
        ("rtscript 1\ngo\ngo", 3, Why::AfterGo),
        ("rtscript 1\ngo\n\n", 3, Why::AfterGo),
        ("rtscript 1\ngo\n# x", 3, Why::AfterGo),
        ("rtscript 1\ngo\n\tx\ny", 3, Why::NotAscii),
        ("rtscript 1\ngo\n#\x7f", 3, Why::NotAscii),
        ("rtscript 1\ngo\n\n\x7f", 3, Why::AfterGo),
        ("rtscript 1\ngo\ncpus 9\n", 3, Why::AfterGo),
        ("rtscript 1\n\n#\ngo\n\n", 5, Why::AfterGo),
        ("rtscript 1\n# \x7f\ngo\n", 2, Why::NotAscii),
        ("rtscript 1\ntask \x01 5 0\ngo\n", 2, Why::NotAscii),
    ] {
        refuses(&rt, rt.alloc(), text.as_bytes(), line, why);
    }
    refuses(
        &rt,
        rt.alloc(),
        b"rtscript 1\npick \xc8\ngo\n",
        2,
        Why::NotAscii,
    );
    refuses(&rt, rt.alloc(), b"\xc8\n", 1, Why::NotAscii);
}

#[test]
fn lines_of_no_form(rt: HostRuntime) -> Result<(), Fail> {
    for line in [
        " go",
        "go ",
        "goo",
        "task",
        "task b 5",
        "task b 5 0 0",
        "task  b 5 0",
        "task b 5 0 ",
        " task b 5 0",
        "lock n",
        "lock n mutes",
        "lock n mutex x",
        "cpus 1",
        "cpus",
        "call",
        "call a",
        "call a lock",
        "call a lock m m",
        "call a take m",
        "call a state L",
        "call a state",
        "call a schedule m",
        "call a setprio a",
        "call a setprio a 1 2",
        "call a move",
        "call a wake",
        "pick",
        "pick a a",
        "Pick a",
        "call zz state X",
        "task zz 999 x y",
    ] {
        let text = format!(in rt.alloc(); "rtscript 1\ntask a 5 0\nlock m mutex\n{line}\ngo\n")?;
        refuses(&rt, rt.alloc(), text.as_bytes(), 4, Why::BadLine);
    }
    Ok(())
}

#[test]
fn faults_of_words(rt: HostRuntime) -> Result<(), Fail> {
    for (line, why) in [
        ("task A 5 0", Why::BadName),
        ("task 1a 5 0", Why::BadName),
        ("task b-c 5 0", Why::BadName),
        ("lock b23456789012345678 spin", Why::BadName),
        ("lock _a mutex", Why::BadName),
        ("task a 5 0", Why::NameTwice),
        ("lock a spin", Why::NameTwice),
        ("task m 5 0", Why::NameTwice),
        ("call b lock m", Why::Unknown),
        ("call m lock m", Why::Unknown),
        ("call a lock a", Why::Unknown),
        ("call a lock n", Why::Unknown),
        ("call a wake m", Why::Unknown),
        ("pick m", Why::Unknown),
        ("task b 140 0", Why::BadNumber),
        ("task b 05 0", Why::BadNumber),
        ("task b +5 0", Why::BadNumber),
        ("task b 5 1", Why::BadNumber),
        ("task b 4294967301 0", Why::BadNumber),
        ("call a setprio a 140", Why::BadNumber),
        ("call a move 1", Why::BadNumber),
        ("call a spin m", Why::WrongKind),
        ("call a read m", Why::WrongKind),
        ("call a local m", Why::WrongKind),
        // The first fault of a line, its words from left to right.
        ("task A 140 9", Why::BadName),
        ("task a 140 9", Why::NameTwice),
        ("task b 140 9", Why::BadNumber),
        ("call zz spin m", Why::Unknown),
        ("call zz move 9", Why::Unknown),
        ("call a setprio zz 140", Why::Unknown),
        // The form of a line goes before its words, and its bytes before its form.
        ("task A 5", Why::BadLine),
        ("lock a mutes", Why::BadLine),
        ("call zz take m", Why::BadLine),
        ("task b 999 0 0", Why::BadLine),
        ("call a spin m m", Why::BadLine),
        ("cpus 9", Why::BadLine),
        ("task A\x01 5", Why::NotAscii),
        ("nonsense\x7f", Why::NotAscii),
        ("task abcdefghijklmnopq 5 0", Why::BadName),
        ("task b 18446744073709551616 0", Why::BadNumber),
    ] {
        let text = format!(in rt.alloc(); "rtscript 1\ntask a 5 0\nlock m mutex\n{line}\ngo\n")?;
        refuses(&rt, rt.alloc(), text.as_bytes(), 4, why);
    }
    for (line, why) in [
        ("cpus 0", Why::BadNumber),
        ("cpus 9", Why::BadNumber),
        ("cpus 08", Why::BadNumber),
    ] {
        let text = format!(in rt.alloc(); "rtscript 1\n{line}\ngo\n")?;
        refuses(&rt, rt.alloc(), text.as_bytes(), 2, why);
    }
    Ok(())
}

// Whether a kind of lock has a call.
fn has_call(kind: &str, call: &str) -> bool {
    match kind {
        "mutex" => matches!(call, "lock" | "lockint" | "trylock" | "unlock"),
        "spin" => matches!(call, "spin" | "tryspin" | "unspin"),
        "local" => matches!(call, "local" | "unlocal"),
        _ => matches!(
            call,
            "read" | "tryread" | "unread" | "write" | "trywrite" | "unwrite" | "downgrade"
        ),
    }
}

#[test]
fn each_kind_with_each_call(rt: HostRuntime) -> Result<(), Fail> {
    for kind in ["mutex", "spin", "rwlock", "rwsem", "local"] {
        for call in [
            "lock",
            "lockint",
            "trylock",
            "unlock",
            "spin",
            "tryspin",
            "unspin",
            "read",
            "tryread",
            "unread",
            "write",
            "trywrite",
            "unwrite",
            "downgrade",
            "local",
            "unlocal",
        ] {
            let text = format!(in rt.alloc();
                "rtscript 1\ntask t 5 0\nlock k {kind}\ncall t {call} k\ngo\n"
            )?;
            assert!(rt; text.len() < 1000);
            if has_call(kind, call) {
                assert!(rt;
                    read_script(rt.alloc(), text.as_bytes()).is_ok(),
                    "{kind} {call}"
                );
            } else {
                refuses(&rt, rt.alloc(), text.as_bytes(), 4, Why::WrongKind);
            }
        }
    }
    Ok(())
}
