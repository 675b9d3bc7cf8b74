//! The sample scene of a number: forty cars on a motorway with three lanes, a book of five rules,
//! and a lattice of thirteen maneuvers.
//!
//! The layer above uses that `sample_scene` gives the scene of `specs/Sample.antt`, well formed,
//! with a start, and with a book that may be bound to its features.
//! Its parts stand in `specs/Motorway.antt`, `specs/Maneuvers.antt` and `specs/Rules.antt`, and the
//! draws on which the cars depend in `specs/Draws.antt`.
#![tactic(auto)]

mod cars;
mod draws;
mod lanes;
mod lattice;
mod literal;
mod maneuvers;
mod rules;
mod sample;

pub use sample::{MAX_NUMBER, SampleScene, sample_scene};
