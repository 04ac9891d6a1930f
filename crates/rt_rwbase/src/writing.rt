ghost use Rattle.std.specs.Prelude.{◌≡◌, ◌<◌, false, true, IsTrue, if◌then◌else◌};
ghost use Rattle.rt_model.specs.steps.Readers.{unbiased, can_write, with_writer, without_writer};
ghost use Rattle.rt_base.specs.declared.limits.TheConstants.{MAX_CALLS};

use rt_model::ReaderCell;

/// A writer that owns the inner lock removes the bias, so that readers take the slow path: the first step
/// of `rwbase_write_lock` and `rwbase_write_trylock`.
pub fn unbias(r: ReaderCell) -> ReaderCell
    requires { IsTrue r.bias }
    ensures { result ≡ unbiased r }
{
    ReaderCell { bias: false, ..r }
}

/// Whether a writer that has removed the bias gets in: no reader is left.
pub fn can_write(r: ReaderCell) -> bool
    ensures { result ≡ can_write r }
{
    r.count == 0
}

/// A writer gets in, where no reader is, `__rwbase_write_trylock`.
pub fn write_in(r: ReaderCell) -> Option<ReaderCell>
    requires bias { r.bias ≡ false }
    requires writer { r.writer ≡ false }
    ensures { result ≡ (if can_write r then Some (with_writer r) else None) }
{
    if !can_write(r) {
        return None;
    }
    Some(ReaderCell { writer: true, ..r })
}

/// A writer leaves, or gives up its way in, `__rwbase_write_unlock`: readers get in at once again. Where
/// `reader` is true it stays as a reader, `rwbase_write_downgrade`.
pub fn write_out(r: ReaderCell, reader: bool) -> ReaderCell
    requires bias { r.bias ≡ false }
    requires writer { IsTrue reader → IsTrue r.writer }
    requires room { IsTrue reader → r.count < MAX_CALLS }
    ensures { result ≡ without_writer reader r }
{
    ReaderCell {
        bias: true,
        writer: false,
        count: r.count + u32::from(reader),
    }
}
