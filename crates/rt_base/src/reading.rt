ghost use Rattle.std.specs.Prelude.{◌≡◌, ◌+◌, ◌<◌, ◌≤◌, ◌↔◌, [], length, IfOk, OnErr, vec_len};
ghost use Rattle.rt_base.specs.Outside.{Takes};
ghost use Rattle.rt_base.specs.Reading.{Ends};

use crate::{NoMemory, Source};
use std::alloc::Global;

/// How much one read asks for.
const PIECE: usize = 64 * 1024;

/// How the reading of a whole input ended.
#[derive(Clone, Copy, Debug, PartialEq, Eq)]
pub enum Taken {
    /// At the end of input, within the limit.
    Whole,
    /// One byte past the limit.
    Over,
    /// The source failed.
    Fault,
}

/// Reads into `buf` until the end of input, or one byte past the limit. Whatever the outcome, what
/// stands in `buf` is what was read.
pub fn read_whole<S: Source>(
    alloc: Global,
    src: &mut S,
    limit: u32,
    buf: &mut Vec<u8>,
) -> Result<Taken, NoMemory>
    requires empty { buf.old.items ≡ [] }
    requires limit { limit < 4294967295 }
    ensures taken { Takes (S.left src.old) buf.new.items (S.left src.new) }
    ensures ended { IfOk result (λ taken. Ends taken buf.new.items limit (S.left src.new)
        (S.faults src.old) (S.faults src.new)) }
    ensures no_fault { OnErr result (S.faults src.new ≡ S.faults src.old) }
    ensures within { length buf.new.items ≤ limit + 1 }
    ensures over { IfOk result (λ taken. (taken ≡ Taken.Over) ↔ (length buf.new.items ≡ limit + 1)) }
    ensures count { S.faults src.old ≤ S.faults src.new }
{
    let mut piece = new_piece(alloc)?;
    let end = limit as usize + 1;
    while buf.len() < end {
        let wanted = PIECE.min(end - buf.len());
        let room = &mut piece[..wanted];
        // Memory comes first, so that what is read is never lost.
        buf.reserve(wanted)?;
        let Ok(count) = src.read(room) else {
            return Ok(Taken::Fault);
        };
        if count == 0 {
            return Ok(Taken::Whole);
        }
        buf.extend_from_slice(&room[..count])?;
    }
    Ok(Taken::Over)
}

/// A buffer for one read.
fn new_piece(alloc: Global) -> Result<Vec<u8>, NoMemory>
    ensures { IfOk result (λ piece. vec_len piece ≡ PIECE) }
{
    Ok(vec![in alloc; 0; PIECE]?)
}
