// Worked scripts of one task, of two, and of a circle.
use crate::test_replays::{INVERSION, INVERSION_JOURNAL, ONE_MUTEX, compare_replays};
use std::test::Fail;

#[test]
fn worked_scripts(rt: HostRuntime) -> Result<(), Fail> {
    let rows: [(&[u8], &[u8], u8); 3] = [
        // one_mutex
        (
            ONE_MUTEX,
            b"rtjournal 1\n1 a fast m -> got\n2 a free m -> done\nend done\ntask a 50 50 R R 2/2 end\nlock m - 0\n",
            0,
        ),
        // inversion
        (INVERSION, INVERSION_JOURNAL, 0),
        // deadlock
        (
            b"rtscript 1\ntask a 50 0\ntask b 40 0\nlock m1 mutex\nlock m2 mutex\n\
              call a lock m1\ncall a lock m2\ncall a unlock m2\ncall a unlock m1\n\
              call b lock m2\ncall b lock m1\ncall b unlock m2\n\
              pick a\npick b\npick a\npick a\npick b\npick b\ngo\n",
            b"rtjournal 1\n\
              1 a fast m1 -> got\n\
              2 b fast m2 -> got\n\
              3 a mark m2\n\
              4 a wait m2\n\
              5 b mark m1\n\
              6 b wait m1 a=40\n\
              7 b walk a m2\n\
              8 b cycle b m1 a m2 a=50\n\
              9 b walk a m2 -> deadlock\n\
              10 b give m2 a -> done\n\
              11 a take m2 -> got\n\
              12 a free m2 -> done\n\
              13 a free m1 -> done\n\
              end done\n\
              task a 50 50 R R 4/4 end\n\
              task b 40 40 R R 3/3 end\n\
              lock m1 - 0\n\
              lock m2 - 0\n",
            0,
        ),
    ];
    compare_replays(&rt, rt.alloc(), &rows)
}
