//! One link of a chain walk, how a walk goes on from it, and whether a link still stands.
//!
//! These are the steps of a link, as the kernel's comment on `rt_mutex_adjust_prio_chain` has its own.
//! The walk stands at a task U, which is blocked on a lock L, whose owner is O. W is the thread of the
//! walker. Nothing is held between two links, so each step looks at what it needs anew.
//!
//! | | step | needs | done by |
//! |---|---|---|---|
//! | 1 | U isn't blocked: the walk ends. | W U | the caller |
//! | 2 | U is queued with an old key: it is queued anew, with its effective priority and the next ticket. | U L | [`walk_step`] |
//! | 3 | L's top row is another one now, and L has an owner: O keeps the key of the new one, and so may have another effective priority. | L O | [`walk_step`] |
//! | 4 | L's top row is another one now, and L has no owner: its task is woken. | L | the caller; [`Step::new_top`] tells whom |
//! | 5 | The walk is full: its path has the link from U to L. | W U L | the caller |
//! | 6 | L has no owner, or O isn't blocked: the walk ends. | L O | [`after`] |
//! | 7 | The walk is full, and O is the walker itself: its path goes round, and is to be confirmed. | W O | [`after`] |
//! | 8 | The walk is full, and O is another task of its path: the walk ends, or the path is cut where O's key is old. | W O | [`after`] |
//! | 9 | The walk is short, and O's key isn't old: the walk ends. | W O | [`after`] |
//! | 10 | Else the walk stands at O. | W O | [`after`] |
//!
//! A path that is to be confirmed is looked at as a whole: whether each of its links stands is asked by
//! [`link()`].
#![tactic(auto)]

mod links;
mod next;
mod step;
#[cfg(test)]
mod walk_tests;

pub use links::link;
pub use next::{Next, after};
pub use step::{Step, walk_step};
