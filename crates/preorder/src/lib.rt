//! Base types, and pre-orders over rules.
//!
//! The layer above uses that `Preorder::above` is the strict part of the closure of the statements.
//! The definitions stand in `specs/Statements.antt`, `specs/Relation.antt` and
//! `specs/Preorder.antt`; those of the base types in `specs/Name.antt` and `specs/Violation.antt`.
#![tactic(auto)]

mod limits;
mod list;
mod memory;
mod name;
mod order;
mod row;
mod violation;

pub use limits::{MAX_NAME, MAX_RULES};
pub use list::List;
pub use memory::NoMemory;
pub use name::Name;
pub use order::{Preorder, PreorderFault};
pub use row::Row;
pub use violation::Violation;
