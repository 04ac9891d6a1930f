ghost use Rattle.std.specs.Prelude.{◌≡◌, ◌≢◌, ◌<◌, ◌≤◌, ◌+◌, [], length, All, AllPairs, None, IfOk, IsSome, vec_len, vec_capacity};
ghost use Rattle.std.specs.List.{insert};
ghost use Rattle.rt_model.specs.laws.Rows.{IsAhead};
ghost use Rattle.rt_model.specs.Rows.{top_waiter, row_of, insert_row, without};
ghost use Rattle.rt_waiters.specs.Queue.{with_row, without_row};

use crate::order::insertion_index;
use crate::steps::Steps;
use rt_base::NoMemory;
use rt_model::Row;
use std::alloc::Global;
use std::marker::Model;
use std::sync::ledger::Ledger;

/// The tasks that wait for a lock, as the waiters' tree of the kernel's `rt_mutex_base`: at most one
/// row for each task, in the order in which they get the lock. There is room for all from the start.
#[derive(Drop)]
pub struct Waiters {
    rows: Vec<Row>,
    room: u32,
}

impl Model for Waiters {
    ghost use Rattle.std.specs.Prelude.{◌<◌, ◌≤◌, ◌^◌, vec_capacity};
    ghost use Rattle.rt_waiters.specs.Queue.{Queue, IsQueued};

    ghost Value = { Queue };

    ghost view = { λ w. record { rows = w.rows.items; room = w.room } };

    ghost invariant = { λ w. IsQueued w.room w.rows.items × (w.room ≤ vec_capacity w.rows) × (w.room < 2 ^ 32) };
}

impl Waiters {
    /// No waiters, with room for the tasks below n.
    pub fn with_room(alloc: Global, n: u32) -> Result<Waiters, NoMemory>
        ensures { IfOk result (λ waiters. waiters ≡ record { rows = []; room = n }) }
    {
        let rows = Vec::with_capacity(alloc, n as usize)?;
        Ok(Waiters { rows, room: n })
    }

    /// The one that gets the lock first, `rt_mutex_top_waiter`.
    pub fn top(&self) -> Option<Row>
        ensures { result ≡ top_waiter self.now.rows }
    {
        self.rows.first().copied()
    }

    /// The row of a task.
    pub fn row(&self, who: u32) -> Option<Row>
        ensures { result ≡ row_of (record { 0 = who }) self.now.rows }
    {
        self.rows.iter().find(|row| row.who == who).copied()
    }

    /// How many tasks wait.
    pub fn len(&self) -> u32
        ensures { result ≡ length self.now.rows }
    {
        self.rows.len() as u32
    }

    /// The rows, in the order in which their tasks get the lock.
    pub fn rows(&self) -> &[Row]
        ensures rows { result.now ≡ self.now.rows }
        ensures few { length result.now ≤ self.now.room }
        ensures order { AllPairs IsAhead result.now }
    {
        self.rows.as_slice()
    }
}

// Rows come and go. A step is a comparison of two rows.
impl Waiters {
    /// Queues a task that isn't queued, with a ticket that no row has: in order of keys, and of tickets
    /// among equal keys, `rt_mutex_enqueue`.
    pub fn insert<L: Ledger>(&mut self, key: u64, ticket: u64, who: u32, steps: &mut Steps<L>)
        requires below { who < self.old.room }
        requires absent { row_of (record { 0 = who }) self.old.rows ≡ None }
        requires fresh { All (λ (row : Row). row.ticket ≢ ticket) self.old.rows }
        ensures rows { self.new ≡ with_row key ticket who self.old }
        ensures cost { steps.new ≤ steps.old + length self.old.rows }
    {
        put_in_order(&mut self.rows, Row { key, ticket, who }, steps);
    }

    /// Takes a task's row out, where there is one, `rt_mutex_dequeue`.
    pub fn remove<L: Ledger>(&mut self, who: u32, steps: &mut Steps<L>) -> Option<Row>
        ensures row { result ≡ row_of (record { 0 = who }) self.old.rows }
        ensures rows { self.new ≡ without_row who self.old }
        ensures cost { steps.new ≤ steps.old + length self.old.rows }
    {
        let row = self.row(who);
        drop_row(&mut self.rows, who);
        row
    }

    /// Queues a queued task anew, with another key and a ticket that no row has, as
    /// `rt_mutex_adjust_prio_chain` does.
    pub fn requeue<L: Ledger>(&mut self, who: u32, key: u64, ticket: u64, steps: &mut Steps<L>)
        requires queued { IsSome (row_of (record { 0 = who }) self.old.rows) }
        requires fresh { All (λ (row : Row). row.ticket ≢ ticket) self.old.rows }
        ensures rows { self.new ≡ with_row key ticket who (without_row who self.old) }
        ensures cost { steps.new ≤ steps.old + length self.old.rows }
    {
        let row = Row { key, ticket, who };
        drop_row(&mut self.rows, row.who);
        put_in_order(&mut self.rows, row, steps);
    }
}

// Puts a row where it belongs among rows in order, where there is room for it.
fn put_in_order<L: Ledger>(rows: &mut Vec<Row>, row: Row, steps: &mut Steps<L>)
    requires { vec_len rows.old < vec_capacity rows.old }
    ensures items { rows.new.items ≡ insert_row row rows.old.items }
    ensures capacity { vec_capacity rows.new ≡ vec_capacity rows.old }
    ensures cost { steps.new ≤ steps.old + length rows.old.items }
{
    let at = insertion_index(rows.as_slice(), &row, steps);
    put(rows, at, row);
}

// Puts a row at an index, where there is room for it.
fn put(rows: &mut Vec<Row>, at: usize, row: Row)
    requires at { at ≤ vec_len rows.old }
    requires room { vec_len rows.old < vec_capacity rows.old }
    ensures items { rows.new.items ≡ insert rows.old.items at row }
    ensures capacity { vec_capacity rows.new ≡ vec_capacity rows.old }
{
    let _ = rows.insert(at, row);
}

// Drops the row of a task.
fn drop_row(rows: &mut Vec<Row>, who: u32)
    ensures items { rows.new.items ≡ without (record { 0 = who }) rows.old.items }
    ensures capacity { vec_capacity rows.new ≡ vec_capacity rows.old }
{
    rows.retain(|row| row.who != who);
}
