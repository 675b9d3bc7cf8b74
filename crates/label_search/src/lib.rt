//! Label search over any step graph and any order of vectors.
//!
//! The layer above uses the clauses of `search`: its labels are the undominated pairs, its finals
//! the answer, and its links show it.
//! The definitions stand in `specs/Found.antt` and `specs/Limit.antt`, over those of graphs,
//! answers and labels in `rulebook_order`; what the search knows from tick to tick stands in
//! `specs/Search.antt`.
#![tactic(auto)]

mod arrival;
mod candidate;
mod finals;
mod index;
mod label;
mod laws;
mod linking;
mod own;
mod searching;
mod settling;
mod sorting;
mod stairs;
mod tick_search;

pub use label::{Found, Label, SearchFault};
pub use laws::limit_is_exact;
pub use searching::{MAX_LIMIT, search};
