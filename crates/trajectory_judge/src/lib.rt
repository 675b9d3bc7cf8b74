//! Recorded trajectories: their file, and how they stand to one another under a book.
//!
//! The layer above uses that `read_records` gives the recordings of `specs/Records.antt`, or the
//! first fault in the order that stands there, and that these are the only well-formed ones whose
//! steps are what the rows say (`AreRecordsOf`); a row is read as `specs/Fields.antt` says.
//! Of `judge` it uses that each recording has its vector, its layer by chains
//! (`specs/Layers.antt`), and the verdict on each pair (`specs/Judgements.antt`).
//! What the records of a file are, is what `csv` promises (`specs/Rows.antt`); its calls stand in
//! `src/rows.rt` alone.
#![tactic(auto)]

mod fault;
mod fields;
mod judged;
mod judging;
mod layers;
mod limits;
mod records;
mod rows;

pub use fault::RecordFault;
pub use judged::Judged;
pub use judging::{Judgement, judge};
pub use limits::{
    MAX_RECORDED_COORDINATE, MAX_RECORDED_HEADING, MAX_RECORDED_SPEED, MAX_RECORDED_STEPS,
    MAX_RECORDED_TICK, MAX_RECORDED_TURN, MAX_RECORDINGS,
};
pub use records::{Recording, Records, read_records};
