ghost use Rattle.std.specs.Prelude.{◌≡◌, ◌<◌, IsTrue};
ghost use Rattle.rt_model.specs.steps.Readers.{can_read, with_reader, without_reader, wakes_writer};
ghost use Rattle.rt_base.specs.declared.limits.TheConstants.{MAX_CALLS};

use rt_model::ReaderCell;

/// Whether a reader gets in, as in the slow path of `__rwbase_read_lock`: the write flag alone decides,
/// so one may get in while a writer waits for others to leave. `rwbase_read_trylock` asks for the bias,
/// and so doesn't get past a writer on its way.
pub fn can_read(r: ReaderCell) -> bool
    ensures { result ≡ can_read r }
{
    !r.writer
}

/// A reader gets in, `rwbase_read_trylock` and the slow path of `__rwbase_read_lock`.
pub fn read_in(r: ReaderCell) -> ReaderCell
    requires open { IsTrue (can_read r) }
    requires room { r.count < MAX_CALLS }
    ensures { result ≡ with_reader r }
{
    ReaderCell {
        count: r.count + 1,
        ..r
    }
}

/// Whether a reader that leaves now is the last one, and a writer has removed the bias.
pub fn is_last(r: ReaderCell) -> bool
    ensures { result ≡ wakes_writer (without_reader r) }
{
    !r.bias && r.count <= 1
}

/// A reader leaves, `rwbase_read_unlock`. True is answered where it is the last one and a writer has removed
/// the bias: then the inner lock's owner is to be woken, `__rwbase_read_unlock`.
pub fn read_out(r: ReaderCell) -> (ReaderCell, bool)
    requires { 0 < r.count }
    ensures { result ≡ (without_reader r, wakes_writer (without_reader r)) }
{
    let left = ReaderCell {
        count: r.count - 1,
        ..r
    };
    (left, !left.bias && left.count == 0)
}
