ghost use Rattle.std.specs.Prelude.{◌≡◌};
ghost use Rattle.rt_model.specs.Rows.{reason_before, reason_among};

use rt_base::limits::MAX_REALTIME;
use rt_base::{Kind, Prio, TaskId};
use rt_model::{Reason, Row};

// Why a task may take a lock without owner, of this kind, with this top waiter.
pub fn reason_among(t: TaskId, key: Prio, kind: Kind, top: Option<Row>) -> Option<Reason>
    ensures { result ≡ reason_among t key kind top }
{
    match top {
        Some(row) => reason_before(t, key.get() as u64, kind, &row),
        None => Some(Reason::Free),
    }
}

// Why it may take it before this waiter, `rt_mutex_steal`.
fn reason_before(t: TaskId, key: u64, kind: Kind, top: &Row) -> Option<Reason>
    ensures { result ≡ reason_before t key kind top.now }
{
    if top.who == t.0 {
        Some(Reason::Top)
    } else if key < top.key {
        Some(Reason::Better)
    } else if key == top.key && (MAX_REALTIME as u64) < key && kind.spins() {
        Some(Reason::Equal)
    } else {
        None
    }
}
