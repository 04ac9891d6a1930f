// Journals judged: legal ones, and one for each sort of wrong line.
use crate::{CheckFault, check};
use rt_base::Ended;
use rt_script::{Script, read_script};
use std::alloc::Global;
use std::test::Fail;

const INVERSION: &[u8] = b"rtscript 1\ntask a 90 0\ntask c 10 0\nlock m mutex\n\
      call a lock m\ncall a unlock m\ncall c lock m\ncall c unlock m\ngo\n";

/// How the run ended whose text this is, or the first wrong line and its number.
fn judged(alloc: Global, script: &Script, text: &[u8]) -> Result<Result<Ended, (u32, u8)>, Fail> {
    if text.len() > 1000 {
        return Err("too long".into());
    }
    match check(alloc, script, text) {
        Ok(ended) => Ok(Ok(ended)),
        Err(CheckFault::Illegal { line, why }) => Ok(Err((line, why))),
        Err(CheckFault::Memory(_)) => Err("no memory".into()),
    }
}

#[test]
fn legal_journals(rt: HostRuntime) -> Result<(), Fail> {
    let alloc = rt.alloc();
    let script = read_script(alloc, INVERSION).ok().ok_or("no script")?;
    let rows: [(&[u8], Ended); 2] = [
        (
            b"rtjournal 1\n1 a fast m -> got\n2 c mark m\n3 c wait m a=10\n4 a give m c a=90 -> done\n\
              5 c take m -> got\n6 c free m -> done\nend done\n\
              task a 90 90 R R 2/2 end\ntask c 10 10 R R 2/2 end\nlock m - 0\n",
            Ended::Done,
        ),
        (
            b"rtjournal 1\n1 c fast m -> got\nend limit\n\
              task a 90 90 R R 0/2 ready\ntask c 10 10 R R 1/2 ready\nlock m c 0\n",
            Ended::Limit,
        ),
    ];
    for (text, ended) in rows {
        assert_eq!(rt; judged(alloc, &script, text)?, Ok(ended));
    }
    Ok(())
}

#[test]
fn wrong_lines(rt: HostRuntime) -> Result<(), Fail> {
    let alloc = rt.alloc();
    let script = read_script(alloc, INVERSION).ok().ok_or("no script")?;
    let rows: [(&[u8], u32, u8); 9] = [
        (b"", 1, 1),
        (b"rtjournal 2\n", 1, 1),
        (b"rtjournal 1\n1 a fast\n", 2, 1),
        (b"rtjournal 1\n1 a fast m -> got\n2 c fast m -> got\n", 3, 2),
        (b"rtjournal 1\n2 a fast m -> got\n", 2, 2),
        (b"rtjournal 1\nend done\n", 2, 3),
        (
            b"rtjournal 1\nend limit\ntask a 90 90 R R 0/2 ready\ntask c 10 9 R R 0/2 ready\n",
            4,
            4,
        ),
        (
            b"rtjournal 1\nend limit\ntask a 90 90 R R 0/2 ready\ntask c 10 10 R R 0/2 ready\nlock m - 0",
            5,
            1,
        ),
        (
            b"rtjournal 1\nend limit\ntask a 90 90 R R 0/2 ready\ntask c 10 10 R R 0/2 ready\nlock m - 0\n\n",
            6,
            1,
        ),
    ];
    for (text, line, why) in rows {
        assert_eq!(rt; judged(alloc, &script, text)?, Err((line, why)));
    }
    Ok(())
}
