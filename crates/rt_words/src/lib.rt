//! The words in which threads share a lock: its owner with the waiters bit, and its readers. Each field
//! of a word lies at bits of its own.
//!
//! | word | bit 0 | then | 21 to 60 | 61 to 63 |
//! |---|---|---|---|---|
//! | [`OwnerWord`] | the waiters bit | 1 to 20: the owner's number plus one, 0 for none | the stamp | zero |
//! | [`ReaderWord`] | the bias | 1: the write flag; 2 to 20: the count of readers | the stamp | zero |
//!
//! A number is a word's exactly where bits 61 to 63 are zero and the owner plus one is at most 64, or the
//! count at most 16,384. Each word has one number, and a number is at most one word's.
#![tactic(auto)]

mod bits;
pub mod layout;
mod owner_word;
mod reader_word;
#[cfg(test)]
mod words_tests;

pub use owner_word::OwnerWord;
pub use reader_word::ReaderWord;
