//! The one call of the program, where a load, a save or a write fails, and the store and the sink
//! that it is given.
//!
//! It has tests alone, over what these crates export. What a call prints of files that are read and
//! taken is told by the rows of `rows/`, which the built program is run on.
#![tactic(auto)]

#[cfg(test)]
mod command_outcome_tests;
#[cfg(test)]
mod failing_tests;
#[cfg(test)]
mod outside_io_tests;
