//! Lock scripts: what the text of a script means, as tasks, locks, calls and picks.
#![tactic(auto)]

mod buildable;
mod call_form;
mod draft;
mod fault;
mod keyword;
mod line_error;
mod lock;
mod name;
mod named;
mod numeral;
mod pieces;
mod reading;
mod script;
mod spelling;
mod task;
mod verb;
mod writing;

pub use buildable::can_build;
pub use fault::{ScriptFault, Why};
pub use numeral::number;
pub use pieces::Pieces;
pub use reading::read_script;
pub use script::Script;

#[cfg(test)]
mod building_tests;
#[cfg(test)]
mod fault_tests;
#[cfg(test)]
mod limit_tests;
#[cfg(test)]
mod reading_tests;
#[cfg(test)]
mod writing_tests;
