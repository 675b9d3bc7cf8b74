//! Plain types of a driving scenario: lanelets, obstacles and planning problems.
//!
//! All fields are public. The layers above use `IsScenario` of `specs/Scenario.antt`, which says
//! when a scenario is well formed, and ask for it.
//! The types are those of CommonRoad 2020a and 2018b as far as they are read here. Lengths are in
//! 0.1 mm, angles in microradians, speeds in mm/s, times in ticks.
#![tactic(auto)]

mod lanelet;
mod limits;
mod obstacle;
mod problem;
mod scenario;

pub use lanelet::{Adjacent, Lanelet};
pub use limits::{
    MAX_BOUND_POINTS, MAX_COORDINATE, MAX_CORNERS, MAX_GOALS, MAX_HEADING, MAX_LANELETS,
    MAX_OBSTACLES, MAX_PROBLEMS, MAX_REGIONS, MAX_SPEED, MAX_STEP_MICROS, MAX_TICK, PAST_IDS,
    RECTANGLE_CORNERS,
};
pub use obstacle::{Obstacle, Pose, Shape};
pub use problem::{Goal, Problem, Region, Span};
pub use scenario::{Scenario, Version};
