//! What the lock machine is: its events, the parts of its state that code passes round, and, in `specs/`,
//! the state, the one next event of each task, what an event leaves, and runs.
#![tactic(auto)]

mod event;
mod event_kind;
mod hold;
mod obj;
mod phase;
mod reader_cell;
mod reason;
mod row;

pub use event::Event;
pub use event_kind::EventKind;
pub use hold::Hold;
pub use obj::Obj;
pub use phase::{Phase, Route};
pub use reader_cell::ReaderCell;
pub use reason::Reason;
pub use row::Row;
