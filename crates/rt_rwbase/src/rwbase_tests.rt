ghost use Rattle.std.specs.Prelude.{◌≡◌, false, true};

use crate::{ReaderCell, can_read, read_in, read_out, unbias, write_in, write_out};

// Nobody is in.
const OPEN: ReaderCell = ReaderCell {
    bias: true,
    writer: false,
    count: 0,
};

#[test]
fn readers_come_and_go(rt: HostRuntime) {
    assert!(rt; can_read(OPEN));
    let one = read_in(OPEN);
    assert_eq!(rt; one, ReaderCell { count: 1, ..OPEN });
    let two = read_in(one);
    assert_eq!(rt; two, ReaderCell { count: 2, ..OPEN });
    assert_eq!(rt; read_out(two), (one, false));
    assert_eq!(rt; read_out(one), (OPEN, false));
}

#[test]
fn a_writer_waits_for_readers(rt: HostRuntime) {
    // It removes the bias with a reader in, and another one still gets in by the slow path.
    assert_eq!(rt; unbias(ReaderCell { count: 1, ..OPEN }), waited_for(1));
    assert!(rt; can_read(waited_for(1)));
    assert_eq!(rt; read_in(waited_for(1)), waited_for(2));
    // The last one that leaves is to wake it.
    assert_eq!(rt; read_out(waited_for(2)), (waited_for(1), false));
    assert_eq!(rt; read_out(waited_for(1)), (waited_for(0), true));
    for (count, is_in) in [(0, true), (1, false), (2, false)] {
        assert_eq!(rt; write_in(waited_for(count)).is_some(), is_in, "{count}");
    }
    // One that only tries goes, and the readers stay.
    assert_eq!(rt;
        write_out(waited_for(2), false),
        ReaderCell { count: 2, ..OPEN }
    );
}

#[test]
fn a_writer_comes_and_goes(rt: HostRuntime) {
    let written = ReaderCell {
        writer: true,
        ..waited_for(0)
    };
    assert_eq!(rt; unbias(OPEN), waited_for(0));
    assert_eq!(rt; write_in(waited_for(0)), Some(written));
    assert!(rt; !can_read(written));
    assert_eq!(rt; write_out(written, false), OPEN);
    // It downgrades to a reader.
    assert_eq!(rt; write_out(written, true), ReaderCell { count: 1, ..OPEN });
}

// A writer is on its way, and so many readers are in.
fn waited_for(count: u32) -> ReaderCell
    ensures { result ≡ record { bias = false; writer = false; count = count } }
{
    ReaderCell {
        bias: false,
        writer: false,
        count,
    }
}
