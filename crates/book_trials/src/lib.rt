//! Rules and books, run on tables of texts and of vectors: names and pre-orders, expressions, books,
//! verdicts, and books derived from books.
//!
//! It has tests alone, over what these crates export.
#![tactic(auto)]

#[cfg(test)]
mod book_operations_tests;
#[cfg(test)]
mod expressions_tests;
#[cfg(test)]
mod preorder_tests;
#[cfg(test)]
mod rule_language_tests;
#[cfg(test)]
mod rulebook_order_tests;
