ghost use Rattle.std.specs.Prelude.{◌≡◌, ◌<◌, ◌≤◌, [], length, take, IfOk, OnOk, OnErr};
ghost use Rattle.rt_base.specs.Outside.{Rises, Appends, Writes};

use crate::{Failed, Sink};

/// Writes until the piece is taken. It takes no memory. After `Failed` some prefix of the piece was
/// written.
pub fn write_whole<K: Sink>(out: &mut K, piece: &[u8]) -> Result<(), Failed>
    ensures { Writes result (K.held out.old) (K.held out.new)
        (K.faults out.old) (K.faults out.new) piece.now }
{
    let mut rest = piece;
    while !rest.is_empty() {
        let taken = write_some(out, rest)?;
        rest = rest.split_at(taken).1;
    }
    Ok(())
}

/// Writes some prefix of a piece that isn't empty, and answers how long. A sink that takes nothing has
/// failed.
fn write_some<K: Sink>(out: &mut K, piece: &[u8]) -> Result<usize, Failed>
    requires { 0 < length piece.now }
    ensures some { IfOk result (λ n. 0 < n) }
    ensures within { IfOk result (λ n. n ≤ length piece.now) }
    ensures appended { IfOk result (λ n. Appends (K.held out.old) (take n piece.now) (K.held out.new)) }
    ensures no_fault { OnOk result (K.faults out.new ≡ K.faults out.old) }
    ensures err { OnErr result (Appends (K.held out.old) [] (K.held out.new)) }
    ensures cause { OnErr result (Rises (K.faults out.old) (K.faults out.new)) }
    ensures count { K.faults out.old ≤ K.faults out.new }
{
    let taken = out.write(piece)?;
    if taken == 0 {
        return Err(Failed);
    }
    Ok(taken)
}
