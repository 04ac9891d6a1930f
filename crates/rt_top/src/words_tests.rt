// Which words are taken, what is refused, and what is written then.
use crate::rtlab;
use crate::test_replays::{ONE_MUTEX, compare_replays, source, too_long, words};
use rt_base::{AlwaysGo, MemSink, MemSource, PlainSink};
use std::test::Fail;

const USAGE: &str =
    "usage: rtlab replay [--turns N] | run [--turns N] [--patience N] | check | gen N [--turns N]\n";

#[test]
fn words_that_are_taken(rt: HostRuntime) -> Result<(), Fail> {
    let alloc = rt.alloc();
    let rows: [(&[&str], u8); 8] = [
        (&["check"], 10),
        (&["replay"], 0),
        (&["replay", "--turns", "0"], 5),
        (&["replay", "--turns", "1"], 5),
        (&["replay", "--turns", "2"], 0),
        (&["replay", "--turns", "4294967295"], 0),
        (&["gen", "0", "--turns", "0"], 5),
        (&["gen", "4294967295", "--turns", "1"], 5),
    ];
    for (texts, status) in rows {
        let mut src = source(alloc, ONE_MUTEX)?;
        let mut out = PlainSink::with_room(alloc, 1000).ok().ok_or("no memory")?;
        assert_eq!(rt;
            rtlab(
                &rt,
                alloc,
                &words(alloc, texts)?,
                &mut src,
                &mut out,
                &AlwaysGo
            ),
            status
        );
    }
    Ok(())
}

#[test]
fn words_that_are_not_taken(rt: HostRuntime) -> Result<(), Fail> {
    let alloc = rt.alloc();
    let rows: [&[&str]; 50] = [
        &[],
        &[""],
        &["replay", ""],
        &["", "replay"],
        &["Replay"],
        &["replay "],
        &["replay", "replay"],
        &["replay", "x"],
        &["replay", "x", "y"],
        &["replay", "3"],
        &["replay", "--turns"],
        &["replay", "--turns", ""],
        &["replay", "--turns", "x"],
        &["replay", "--turns", "01"],
        &["replay", "--turns", "00"],
        &["replay", "--turns", "+1"],
        &["replay", "--turns", "-1"],
        &["replay", "--turns", " 1"],
        &["replay", "--turns", "1 "],
        &["replay", "--turns", "4294967296"],
        &["replay", "--turns", "42949672950"],
        &["replay", "--turns", "18446744073709551616"],
        &["replay", "--turns=3"],
        &["replay", "--turns", "3", "--turns", "3"],
        &["replay", "--turns", "3", "x"],
        &["--turns", "3", "replay"],
        &["replay", "--patience", "3"],
        &["replay", "--patience", "3", "--patience", "3"],
        &["replay", "--"],
        &["replay", "--help"],
        &["--help"],
        &["--version"],
        &["replay", "-h"],
        &["check", ""],
        &["check", "check"],
        &["check", "--turns", "3"],
        &["Check"],
        &["gen"],
        &["gen", ""],
        &["gen", "x"],
        &["gen", "01"],
        &["gen", "+1"],
        &["gen", "4294967296"],
        &["gen", "1", "2"],
        &["gen", "--turns", "1"],
        &["gen", "--turns", "1", "1"],
        &["gen", "1", "--turns"],
        &["gen", "1", "--turns", "01"],
        &["gen", "1", "--patience", "1"],
        &["1", "gen"],
    ];
    for texts in rows {
        let mut src = MemSource::new(ONE_MUTEX.to_vec(alloc)?, [0].to_vec(alloc)?);
        let mut out = PlainSink::with_room(alloc, 1000).ok().ok_or("no memory")?;
        assert_eq!(rt;
            rtlab(
                &rt,
                alloc,
                &words(alloc, texts)?,
                &mut src,
                &mut out,
                &AlwaysGo
            ),
            2
        );
        assert_eq!(rt; out.bytes(), USAGE.as_bytes());
    }
    Ok(())
}

#[test]
fn an_input_that_is_too_long(rt: HostRuntime) -> Result<(), Fail> {
    let alloc = rt.alloc();
    let long = too_long(alloc)?;
    compare_replays(&rt, alloc, &[(long.as_slice(), b"too long\n", 9)])
}

// What is wrong first is what is told.
#[test]
fn order_of_refusals(rt: HostRuntime) -> Result<(), Fail> {
    let alloc = rt.alloc();
    let whole = b"rtscript 1\ngo\n".to_vec(alloc)?;
    let bad = b"rtscript 1\nrun\n".to_vec(alloc)?;
    let long = too_long(alloc)?;
    let row = ONE_MUTEX.to_vec(alloc)?;
    let legal = b"rtscript 1\ngo\nrtjournal 1\nend done\n".to_vec(alloc)?;
    let illegal = b"rtscript 1\ngo\nrtjournal 1\nend stuck\n".to_vec(alloc)?;
    let rows: [(&str, &Vec<u8>, u32, u32, u8, &str); 15] = [
        // words before a read, a read before a script, a script before a write
        ("x", &whole, 0, 9, 2, USAGE),
        ("x", &whole, 0, 0, 2, ""),
        ("replay", &bad, 0, 9, 6, "read fault\n"),
        ("replay", &bad, 9, 9, 3, "bad script: line 2, fault 3\n"),
        ("replay", &bad, 9, 0, 3, ""),
        ("replay", &whole, 9, 0, 7, ""),
        ("replay", &row, 0, 9, 6, "read fault\n"),
        ("replay", &row, 9, 0, 7, ""),
        // a fault within the limit, and one that would come after it
        ("replay", &long, 16, 9, 6, "read fault\n"),
        ("replay", &long, 17, 9, 9, "too long\n"),
        // a script before a journal, a journal before a write
        ("check", &bad, 9, 9, 3, "bad script: line 2, fault 3\n"),
        ("check", &illegal, 9, 9, 10, "illegal 2 3\n"),
        ("check", &illegal, 9, 0, 10, ""),
        ("check", &legal, 9, 9, 0, "legal done\n"),
        ("check", &legal, 9, 0, 7, ""),
    ];
    for (word, text, read, write, status, printed) in rows {
        let mut src = MemSource::new(text.to_vec(alloc)?, [read].to_vec(alloc)?);
        let mut out = MemSink::with_room(alloc, 1000, [write].to_vec(alloc)?)
            .ok()
            .ok_or("no memory")?;
        assert_eq!(rt;
            rtlab(
                &rt,
                alloc,
                &words(alloc, &[word])?,
                &mut src,
                &mut out,
                &AlwaysGo
            ),
            status
        );
        assert_eq!(rt; out.bytes(), printed.as_bytes());
    }
    Ok(())
}
