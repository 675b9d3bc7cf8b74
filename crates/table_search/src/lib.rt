//! Searches of graphs over their tables: what a search over the table finds, at the states of the
//! graph.
//!
//! The layer above uses that `search_by_table` has the clauses of `search` of `label_search`: its
//! labels, parents, links and finals are those of the graph. The definition stands in
//! `specs/Relabeled.antt`; that what is shown over a table is shown over its graph is proved in
//! `proofs/Carried.antt`, for any two graphs that are alike.
#![tactic(auto)]

mod relabeling;
mod searching;

pub use searching::search_by_table;
