ghost use Rattle.std.specs.Prelude.{◌≡◌, ◌≤◌, not, option_map, IfSome, AllPairs};
ghost use Rattle.rt_model.specs.laws.Rows.{IsAhead};
ghost use Rattle.rt_model.specs.Rows.{same_top, task_of, top_waiter, insert_row, without};
ghost use Rattle.rt_locks.specs.OwnerCell.{HasTickets};
ghost use Rattle.rt_locks.specs.Top.{is_first};

use rt_base::limits::MAX_PRIO;
use rt_base::{Prio, TaskId};
use rt_model::Row;

/// The priority of a row.
pub fn key_in(row: Option<Row>) -> Option<Prio>
    requires { IfSome row (λ r. r.key ≤ MAX_PRIO) }
    ensures { result ≡ option_map (λ r. r.key) row }
{
    match row {
        Some(row) => Prio::new(row.key),
        None => None,
    }
}

/// The task of a row.
pub fn task_of_row(row: Option<Row>) -> Option<TaskId>
    ensures { result ≡ option_map task_of row }
{
    match row {
        Some(row) => Some(TaskId(row.who)),
        None => None,
    }
}

// Whether the top row is the task's.
pub fn is_first(top: Option<Row>, t: TaskId) -> bool
    ensures { result ≡ is_first t top }
{
    match top {
        Some(row) => row.who == t.0,
        None => false,
    }
}

// Whether another row is the top one now.
pub fn is_changed(old: Option<Row>, new: Option<Row>) -> bool
    ensures { result ≡ not (same_top old new) }
{
    old != new
}

// The first row of another task.
pub fn first_other(rows: &[Row], t: TaskId) -> Option<Row>
    requires { AllPairs IsAhead rows.now }
    ensures { result ≡ top_waiter (without t rows.now) }
{
    rows.iter().find(|row| row.who != t.0).copied()
}

// The top row once this one, which is the newest, stands in place of its task's: after the others of no
// worse key.
pub fn top_with(rows: &[Row], row: Row) -> Option<Row>
    requires order { AllPairs IsAhead rows.now }
    requires newest { HasTickets row.ticket rows.now }
    ensures top { result ≡ top_waiter (insert_row row (without (task_of row) rows.now)) }
    ensures key { IfSome result (λ r. r.key ≤ row.key) }
{
    match first_other(rows, TaskId(row.who)) {
        Some(other) if other.key <= row.key => Some(other),
        _ => Some(row),
    }
}
