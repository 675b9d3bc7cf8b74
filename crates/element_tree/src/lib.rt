//! The elements of a markup document (a profile of CommonRoad XML, this project's own), which the
//! tree lends.
//!
//! The layer above uses that `read_tree` gives the elements of `markup`, and that a name, a value
//! and a text are the slices of the source at their place.
//! The definitions stand in `specs/Documents.antt` and `specs/Trees.antt`, the laws above them in
//! `specs/Contents.antt` and `specs/Shown.antt`.
#![tactic(auto)]

mod bytes;
mod fault;
mod limits;
mod names;
mod node;
mod reader;
mod tag;
mod token;
mod tree;

pub use fault::MarkupFault;
pub use limits::{MAX_DEPTH, MAX_ELEMENTS};
pub use tree::{Tree, read_tree};
