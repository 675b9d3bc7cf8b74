//! What reading a file gives: a value, or the first fault.
//!
//! The lines of a file, the words of a line and the numbers of words; readers use that lines, words
//! and numbers are those of `specs/Lines.antt` and `specs/Words.antt`.
//! `specs/Reading.antt` says once what a call gives against what reading gives, how items are read
//! one after the other, and what the first fault is.
#![tactic(auto)]

mod lines;
mod words;

pub use lines::split_line;
pub use words::{PAST, number_in, words_of};
