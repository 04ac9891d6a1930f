use crate::{OwnerWord, ReaderWord};
use rt_base::TaskId;
use std::test::Fail;

#[test]
fn owner_words(rt: HostRuntime) -> Result<(), Fail> {
    for (number, stamp, owner, waiters) in [
        (0, 0, None, false),
        (1, 0, None, true),
        (2, 0, Some(TaskId(0)), false),
        (2_097_155, 1, Some(TaskId(0)), true),
        // The greatest stamp, the last task, and both.
        (2_305_843_009_211_596_800, LAST_STAMP, None, false),
        (128, 0, Some(TaskId(63)), false),
        (
            2_305_843_009_211_596_929,
            LAST_STAMP,
            Some(TaskId(63)),
            true,
        ),
    ] {
        let word = OwnerWord {
            stamp,
            owner,
            waiters,
        };
        let found = OwnerWord::unpack(number).ok_or("no word")?;
        assert_eq!(rt; found, word, "{number}");
        assert_eq!(rt; found.pack(), number);
    }
    // The owner plus one is 65, or all of its bits are set; a bit above the stamp is set.
    for number in [
        130,
        131,
        2_097_150,
        BIT_61,
        BIT_61 + 3,
        1 << 62,
        1 << 63,
        u64::MAX,
    ] {
        assert_eq!(rt; OwnerWord::unpack(number), None, "{number}");
    }
    Ok(())
}

#[test]
fn reader_words(rt: HostRuntime) -> Result<(), Fail> {
    for (number, stamp, bias, writer, count) in [
        (0, 0, false, false, 0),
        (1, 0, true, false, 0),
        (2, 0, false, true, 0),
        (4, 0, false, false, 1),
        (6_291_465, 3, true, false, 2),
        // The greatest stamp, the greatest count, and both.
        (2_305_843_009_211_596_800, LAST_STAMP, false, false, 0),
        (65_536, 0, false, false, 16_384),
        (2_305_843_009_211_662_339, LAST_STAMP, true, true, 16_384),
    ] {
        let word = ReaderWord {
            stamp,
            bias,
            writer,
            count,
        };
        let found = ReaderWord::unpack(number).ok_or("no word")?;
        assert_eq!(rt; found, word, "{number}");
        assert_eq!(rt; found.pack(), number);
    }
    // The count is 16,385, or all of its bits are set; a bit above the stamp is set.
    for number in [
        65_540,
        65_541,
        2_097_148,
        BIT_61,
        BIT_61 + 4,
        1 << 62,
        1 << 63,
        u64::MAX,
    ] {
        assert_eq!(rt; ReaderWord::unpack(number), None, "{number}");
    }
    Ok(())
}

const LAST_STAMP: u64 = 1_099_511_627_775;

const BIT_61: u64 = 2_305_843_009_213_693_952;
