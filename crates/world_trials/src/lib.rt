//! The world and what is measured in it, run on small scenes: shapes, lanelets, obstacles, features,
//! lattices, recordings and the sample scene.
//!
//! It has tests alone, over what these crates export. The sources of features that they measure by
//! stand in `specs/`.
#![tactic(auto)]

#[cfg(test)]
mod fixed_geometry_tests;
#[cfg(test)]
mod fixtures;
#[cfg(test)]
mod lanelet_network_tests;
#[cfg(test)]
mod maneuver_lattice_tests;
#[cfg(test)]
mod moving_obstacles_tests;
#[cfg(test)]
mod sample_scene_tests;
#[cfg(test)]
mod trajectory_judge_tests;
#[cfg(test)]
mod violation_measures_tests;
