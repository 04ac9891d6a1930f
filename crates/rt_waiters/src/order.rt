ghost use Rattle.std.specs.Prelude.{◌≡◌, ◌+◌, ◌≤◌, length};
ghost use Rattle.std.specs.List.{insert};
ghost use Rattle.rt_model.specs.Rows.{goes_before, insert_row};

use crate::steps::Steps;
use rt_model::Row;
use std::sync::ledger::Ledger;

// Whether a row goes before another, `rt_waiter_node_less`: less key, or the same key and less ticket.
// Rows are ordered here alone, and each comparison is a step.
fn goes_before<L: Ledger>(row: &Row, other: &Row, steps: &mut Steps<L>) -> bool
    ensures answer { result ≡ goes_before row.now other.now }
    ensures cost { steps.new ≡ steps.old + 1 }
{
    steps.tick();
    row.key < other.key || row.key == other.key && row.ticket < other.ticket
}

// Where a row belongs among rows in order: before the first one that it goes before.
pub fn insertion_index<L: Ledger>(rows: &[Row], row: &Row, steps: &mut Steps<L>) -> usize
    ensures within { result ≤ length rows.now }
    ensures index { insert rows.now result row.now ≡ insert_row row.now rows.now }
    ensures cost { steps.new ≤ steps.old + length rows.now }
{
    for i in 0..rows.len() {
        if goes_before(row, &rows[i], steps) {
            return i;
        }
    }
    rows.len()
}
