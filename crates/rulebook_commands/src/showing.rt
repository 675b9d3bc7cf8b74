ghost use Rattle.std.specs.Prelude.{◌≡◌, ◌++◌, IfOk, OnOk};
ghost use Rattle.std.specs.List.{flat_map};
ghost use Rattle.std.specs.String.{string_bytes};
ghost use Rattle.text_lines.specs.Lines.{cells};
ghost use Rattle.command_outcome.specs.Ends.{Serves, shelf};
ghost use Rattle.rulebook_commands.specs.Show.{head_lines, lanelet_line, lanelet_lines, moving_text};
ghost use Rattle.rulebook_commands.specs.Show.{obstacle_line, obstacle_lines, problem_line};
ghost use Rattle.rulebook_commands.specs.Show.{problem_lines, show_task, show_text, version_text};

use bound_scene::load_scenario;
use command_outcome::Stop;
use outside_io::Store;
use scenario_model::{Lanelet, Obstacle, Problem, Scenario, Version};
use std::alloc::{AllocError, Global};
use std::fmt::Write;

fn version_text(version: Version) -> &'static str
    ensures { result.now ≡ version_text version }
{
    match version {
        Version::V2020a => "2020a",
        Version::V2018b => "2018b",
    }
}

fn moving_text(moving: bool) -> &'static str
    ensures { result.now ≡ moving_text moving }
{
    if moving { "moving" } else { "static" }
}

// Appends each number behind a space.
fn push_ids(out: &mut String, ids: &[u64]) -> Result<(), AllocError>
    ensures { OnOk result (string_bytes out.new ≡ string_bytes out.old ++ cells ids.now) }
{
    for id in ids {
        write!(out, " {id}")?;
    }
    Ok(())
}

#[tactic(auto, unfolding(crate::specs::Show::lanelet_line))]
fn push_lanelet(out: &mut String, lanelet: &Lanelet) -> Result<(), AllocError>
    ensures { OnOk result (string_bytes out.new ≡ string_bytes out.old
        ++ lanelet_line lanelet.now) }
{
    let id = lanelet.id;
    let points = lanelet.left.as_slice().len() + lanelet.right.as_slice().len();
    let successors = lanelet.successors.as_slice();
    let count = successors.len();
    write!(out, "lanelet {id} points {points} successors {count}")?;
    push_ids(out, successors)?;
    out.push_str("\n")?;
    Ok(())
}

#[tactic(auto, unfolding(crate::specs::Show::obstacle_line))]
fn push_obstacle(out: &mut String, obstacle: &Obstacle) -> Result<(), AllocError>
    ensures { OnOk result (string_bytes out.new ≡ string_bytes out.old
        ++ obstacle_line obstacle.now) }
{
    let id = obstacle.id;
    let moving = moving_text(obstacle.moving);
    let states = obstacle.states.as_slice().len();
    let shapes = obstacle.shapes.as_slice().len();
    write!(
        out,
        "obstacle {id} {moving} states {states} shapes {shapes}\n"
    )
}

#[tactic(auto, unfolding(crate::specs::Show::problem_line))]
fn push_problem(out: &mut String, problem: &Problem) -> Result<(), AllocError>
    ensures { OnOk result (string_bytes out.new ≡ string_bytes out.old
        ++ problem_line problem.now) }
{
    let id = problem.id;
    let x = problem.start.position.x;
    let y = problem.start.position.y;
    write!(out, "problem {id} x {x} y {y}")?;
    let heading = problem.start.heading;
    let speed = problem.start.speed;
    write!(out, " heading {heading} speed {speed}")?;
    let tick = problem.start.tick;
    let goals = problem.goals.as_slice().len();
    write!(out, " tick {tick} goals {goals}\n")?;
    Ok(())
}

fn push_head(out: &mut String, scenario: &Scenario) -> Result<(), AllocError>
    ensures { OnOk result (string_bytes out.new ≡ string_bytes out.old ++ head_lines scenario.now) }
{
    let version = version_text(scenario.version);
    let step = scenario.step_micros;
    write!(out, "version {version}\nstep {step}\n")
}

fn push_lanelets(out: &mut String, lanelets: &[Lanelet]) -> Result<(), AllocError>
    ensures { OnOk result (string_bytes out.new ≡ string_bytes out.old
        ++ lanelet_lines lanelets.now) }
{
    let count = lanelets.len();
    write!(out, "lanelets {count}\n")?;
    for lanelet in lanelets {
        push_lanelet(out, lanelet)?;
    }
    Ok(())
}

fn push_obstacles(out: &mut String, obstacles: &[Obstacle]) -> Result<(), AllocError>
    ensures { OnOk result (string_bytes out.new ≡ string_bytes out.old
        ++ obstacle_lines obstacles.now) }
{
    let count = obstacles.len();
    write!(out, "obstacles {count}\n")?;
    for obstacle in obstacles {
        push_obstacle(out, obstacle)?;
    }
    Ok(())
}

fn push_problems(out: &mut String, problems: &[Problem]) -> Result<(), AllocError>
    ensures { OnOk result (string_bytes out.new ≡ string_bytes out.old
        ++ problem_lines problems.now) }
{
    let count = problems.len();
    write!(out, "problems {count}\n")?;
    for problem in problems {
        push_problem(out, problem)?;
    }
    Ok(())
}

// The lines of a scenario.
fn show_text(alloc: Global, scenario: &Scenario) -> Result<String, AllocError>
    ensures { IfOk result (λ text. string_bytes text ≡ show_text scenario.now) }
{
    let mut out = String::new(alloc);
    push_head(&mut out, scenario)?;
    push_lanelets(&mut out, scenario.lanelets.as_slice())?;
    push_obstacles(&mut out, scenario.obstacles.as_slice())?;
    push_problems(&mut out, scenario.problems.as_slice())?;
    Ok(out)
}

/// What `show SCENARIO` writes.
pub fn show<S: Store>(alloc: Global, store: &mut S, scenario: &str) -> Result<Vec<u8>, Stop>
    ensures { Serves (show_task scenario.now)
        (shelf S.held S.faults S.failed store.old)
        (shelf S.held S.faults S.failed store.new) result }
{
    let scenario = load_scenario(alloc, store, scenario)?;
    let text = show_text(alloc, &scenario)?;
    Ok(text.into_bytes())
}
