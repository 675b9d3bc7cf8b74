//! The search and the check of what it gives, run on orders and graphs of its own.
#![tactic(auto)]

pub mod fan;
#[cfg(test)]
mod graph_table_tests;
pub mod last_first;
pub mod place;
#[cfg(test)]
mod sample_tests;
#[cfg(test)]
mod scene_table_tests;
pub mod table;
#[cfg(test)]
mod tests;
