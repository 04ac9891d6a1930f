//! What is told of events: their entries and lines in a journal, and what they touch.
#![tactic(auto)]

mod appending;
mod entry;
mod first_link;
mod footprint;
mod journal;
mod line;
mod operands;
mod reading;
#[cfg(test)]
mod reading_tests;
mod state_numbers;
#[cfg(test)]
mod tests;
mod told;
mod well_formed;
mod words;
mod writer;

pub use appending::{append, push_byte, push_digits, push_number, push_word};
pub use entry::{Entry, entry_of};
pub use first_link::{first_lock, first_owner};
pub use footprint::{disjoint, touches};
pub use journal::{write_end_line, write_header};
pub use line::{write_event, write_line};
pub use reading::{LineFault, read_line};
pub use rt_model::{Event, EventKind, Obj};
pub use state_numbers::{state_number, state_numbered};
pub use well_formed::is_well_formed;
pub use words::{WORD_ROOM, kind_text, push_lock, push_task, push_task_or_dash, reply_text};
pub use writer::slept;
