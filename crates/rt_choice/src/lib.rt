//! Which event a task makes next, of the shared parts and its own thread alone.
#![tactic(auto)]

mod acquire;
mod chosen;
mod confirm;
mod event;
mod next;
mod own;
mod readers;
mod release;
mod wait;
mod wakeups;
mod walk;

pub use chosen::{Chosen, event_of};
pub use confirm::confirmed_event;
pub use event::is_old;
pub use next::next_of;
pub use own::own_answer;
pub use wait::is_awake;
