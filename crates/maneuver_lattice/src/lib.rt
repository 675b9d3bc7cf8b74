//! The lattice of driving maneuvers: its file, and how a vehicle moves over it.
//!
//! The layer above uses that `read_lattice` gives the lattice of `specs/Lattices.antt`, or the
//! first fault in the order that stands there, and that it is the one well-formed lattice
//! (`IsLattice`) that the document says (`specs/LatticeOf.antt`).
//! Of `SceneMoves` it uses that each call answers by the states, choices, steps and goals of
//! `specs/Scenes.antt`, `Driving.antt` and `Goals.antt`, and that every reached state keeps its
//! ranges (`IsOnLattice`).
//! Of `SceneGraph` it uses that it is a step graph (`specs/SceneGraphs.antt`), in which a list of
//! choices reaches what its steps amount to (`lists_add_up`).
//! TOML is read by `toml`, whose calls stand in `src/document.rt` alone.
#![tactic(auto)]

mod choice;
mod class;
mod document;
mod fault;
mod goal;
mod lattice;
mod laws;
mod limits;
mod maneuver;
mod moves;
mod position;
mod reader;
mod scene_graph;
mod start;
mod state;
mod steps;
mod tables;
mod values;

pub use fault::{Key, LatticeFault, LatticeKind};
pub use lattice::{Class, Lattice, LatticeStep, Maneuver};
pub use laws::lists_add_up;
pub use limits::{
    MAX_ANGLE, MAX_CHOICES, MAX_CLASSES, MAX_HORIZON, MAX_LENGTH, MAX_OFFSET, MAX_SPEED,
    MAX_STEP_OFFSET, MAX_STEPS,
};
pub use moves::SceneMoves;
pub use reader::read_lattice;
pub use scene_graph::SceneGraph;
pub use state::LatticeState;
