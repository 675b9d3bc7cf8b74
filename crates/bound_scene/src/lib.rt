//! A scene: a scenario, a book and a lattice, read from their files, and the book bound to what surrounds
//! the vehicle.
//!
//! The layer above uses `load_scene_files`, `bind_scene`, `source_of` and `graph_of`, whose clauses give
//! the inputs of a command over a scene. What is read of each file, and what is said of each fault,
//! stands in `specs/Inputs.antt`, `specs/ScenarioInput.antt` and `specs/SceneInputs.antt`.
#![tactic(auto)]

mod inputs;
mod scenario_input;
mod scene_files;
mod scenes;

pub use inputs::{load_book, load_book_and_table};
pub use scenario_input::load_scenario;
pub use scene_files::{SceneFiles, load_scene_files, refuse_lattice};
pub use scenes::{
    BoundScene, Graph, Surroundings, bind_scene, first_problem, graph_of, source_of,
    surroundings_of, test_binding,
};
