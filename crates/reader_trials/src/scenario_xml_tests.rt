//! Documents, and the values that are read of them. What is refused, and where, is told by the rows
//! of `show`.
use fixed_geometry::Point;
use scenario_model::{Pose, Region, Scenario, Shape};
use scenario_xml::read_scenario;
use std::alloc::Global;
use std::process::Abort;
use std::test::Fail;

const HEAD: &str = "<commonRoad commonRoadVersion=\"2020a\" timeStepSize=\"0.1\">";

const LANELET: &str =
    "<lanelet id=\"1\"><leftBound><point><x>-50</x><y>2</y></point><point><x>150</x><y>2</y></point></leftBound><rightBound><point><x>-50</x><y>-2</y></point><point><x>150</x><y>-2</y></point></rightBound><successor ref=\"7\"/><adjacentLeft ref=\"1\" drivingDir=\"opposite\"/></lanelet>";

const STATE: &str =
    "<initialState><position><point><x>0</x><y>0.00005</y></point></position><orientation><exact>1e-05</exact></orientation><time><exact>0</exact></time><velocity><exact>10</exact></velocity></initialState>";

const TIME: &str = "<time><intervalStart>1</intervalStart><intervalEnd>20</intervalEnd></time>";

const SIDES: &str = "<rectangle><length>4.5</length><width>1.8</width></rectangle>";

const PROBLEM: &str =
    "<planningProblem id='8'><initialState><position><point><x>0</x><y>0</y></point></position></initialState><goalState><time><exact>1</exact></time></goalState></planningProblem>";

const END: &str = "</commonRoad>";

// A lanelet up to its references, and a problem up to its goal.
const BOUNDED: &str =
    "<lanelet id='1'><leftBound><point><x>0</x><y>0</y></point><point><x>0</x><y>0</y></point></leftBound><rightBound><point><x>0</x><y>0</y></point><point><x>0</x><y>0</y></point></rightBound>";

const STARTED: &str =
    "<planningProblem id='9'><initialState><position><point><x>0</x><y>0</y></point></position></initialState><goalState>";

// The scenario of a root that holds these pieces.
fn scenario_of(alloc: Global, pieces: &[&str]) -> Result<Scenario, Fail> {
    let mut text = String::from_str(alloc, HEAD)?;
    for piece in pieces {
        text.push_str(piece)?;
    }
    text.push_str(END)?;
    let scenario = read_scenario(alloc, text.as_bytes())
        .ok()
        .ok_or("a scenario")?;
    Ok(scenario)
}

// A scenario with a lanelet, two obstacles and a problem.
fn sample(alloc: Global) -> Result<Scenario, Fail> {
    let goal =
        "<position><lanelet ref=\"1\"/></position><orientation><intervalStart>-0.5</intervalStart><intervalEnd>0.5</intervalEnd></orientation>";
    let problem = format!(in alloc;
        "<planningProblem id=\"9\">{STATE}<goalState>{TIME}{goal}</goalState></planningProblem>"
    )?;
    let standing = format!(in alloc;
        "<staticObstacle id=\"5\"><shape>{SIDES}</shape><initialState><position><point><x>10</x><y>0</y></point></position></initialState></staticObstacle>"
    )?;
    let moving = format!(in alloc;
        "<dynamicObstacle id=\"20\"><type>car</type><shape><circle><radius>1</radius></circle></shape>{STATE}<trajectory><state><position><point><x>1</x><y>2</y></point></position><time><exact>1</exact></time></state></trajectory></dynamicObstacle>"
    )?;
    let text = format!(in alloc;
        "<?xml version='1.0'?>\n{HEAD}\n <location/>{LANELET}{standing}{moving}{problem}{END}\n"
    )?;
    let scenario = read_scenario(alloc, text.as_bytes())
        .ok()
        .ok_or("a scenario")?;
    Ok(scenario)
}

// A lanelet keeps its references to lanelets that there are.
fn lanelet(rt: &impl Abort, scenario: &Scenario) -> Result<(), Fail> {
    assert_eq!(rt; scenario.step_micros, 100_000);
    let [lanelet] = scenario.lanelets.as_slice() else {
        return Err(Fail::from("one lanelet"));
    };
    let left = [
        Point {
            x: -500_000,
            y: 20_000,
        },
        Point {
            x: 1_500_000,
            y: 20_000,
        },
    ];
    assert_eq!(rt; lanelet.left.as_slice(), left.as_slice());
    assert_eq!(rt; lanelet.successors.as_slice().len(), 0);
    assert_eq!(rt;
        lanelet
            .adjacent_left
            .map(|beside| (beside.id, beside.same_way)),
        Some((1, false))
    );
    assert_eq!(rt; lanelet.adjacent_right, None);
    Ok(())
}

// Obstacles have shapes and states.
fn obstacles(rt: &impl Abort, scenario: &Scenario) -> Result<(), Fail> {
    let [standing, moving] = scenario.obstacles.as_slice() else {
        return Err(Fail::from("two obstacles"));
    };
    assert_eq!(rt;
        (
            standing.id,
            standing.moving,
            standing.states.as_slice().len()
        ),
        (5, false, 1)
    );
    let [
        Shape::Rectangle {
            length,
            width,
            heading,
            ..
        },
    ] = standing.shapes.as_slice()
    else {
        return Err(Fail::from("a rectangle"));
    };
    assert_eq!(rt; (*length, *width, *heading), (45_000, 18_000, 0));
    assert_eq!(rt; (moving.id, moving.moving), (20, true));
    let states = [
        Pose {
            tick: 0,
            position: Point { x: 0, y: 1 },
            heading: 10,
            speed: 10_000,
        },
        Pose {
            tick: 1,
            position: Point {
                x: 10_000,
                y: 20_000,
            },
            heading: 0,
            speed: 0,
        },
    ];
    assert_eq!(rt; moving.states.as_slice(), states.as_slice());
    Ok(())
}

// A problem has a start and goals.
fn problem(rt: &impl Abort, scenario: &Scenario) -> Result<(), Fail> {
    let [problem] = scenario.problems.as_slice() else {
        return Err(Fail::from("one problem"));
    };
    assert_eq!(rt; (problem.id, problem.start.speed), (9, 10_000));
    let [goal] = problem.goals.as_slice() else {
        return Err(Fail::from("one goal"));
    };
    assert_eq!(rt; (goal.first_tick, goal.last_tick), (1, 20));
    assert!(rt; matches!(goal.regions.as_slice(), [Region::OnLanelet(1)]));
    assert_eq!(rt;
        goal.heading.map(|span| (span.low, span.high)),
        Some((-500_000, 500_000))
    );
    assert_eq!(rt; goal.speed, None);
    Ok(())
}

#[test]
fn a_scenario_is_what_its_document_says(rt: HostRuntime) -> Result<(), Fail> {
    let scenario = sample(rt.alloc())?;
    lanelet(&rt, &scenario)?;
    obstacles(&rt, &scenario)?;
    problem(&rt, &scenario)
}

const DIRECTIONS: [(&str, bool); 9] = [
    ("", true),
    (" drivingDir='same'", true),
    (" drivingDir=\"same\"", true),
    (" drivingDir='opposite'", false),
    (" drivingDir=''", false),
    (" drivingDir=' same'", false),
    (" drivingDir='Same'", false),
    (" drivingDir='&#115;ame'", false),
    (" drivingdir='opposite'", true),
];

const SPANS: [(&str, u32, u32); 4] = [
    ("<exact>4</exact>", 4, 4),
    (
        "<intervalStart>1</intervalStart><exact>4</exact><intervalEnd>9</intervalEnd>",
        4,
        4,
    ),
    (
        "<intervalEnd>9</intervalEnd><intervalStart>1</intervalStart>",
        1,
        9,
    ),
    (
        "<intervalStart>9</intervalStart><intervalEnd>1</intervalEnd>",
        9,
        1,
    ),
];

// References to absent lanelets are dropped.
fn dropped(rt: &impl Abort, alloc: Global) -> Result<(), Fail> {
    let references =
        "<successor ref='7'/><predecessor ref='9'/><successor ref='02'/><predecessor ref='2'/><successor ref='1'/><successor ref='2'/>";
    let beside = "<adjacentLeft ref='7'/><adjacentLeft ref='2'/><adjacentRight ref='2'/></lanelet>";
    let other =
        "<lanelet id='2'><leftBound><point><x>0</x><y>0</y></point><point><x>1</x><y>0</y></point></leftBound><rightBound><point><x>0</x><y>0</y></point><point><x>1</x><y>0</y></point></rightBound></lanelet>";
    let scenario = scenario_of(alloc, &[BOUNDED, references, beside, other, PROBLEM])?;
    let [lanelet, _] = scenario.lanelets.as_slice() else {
        return Err(Fail::from("two lanelets"));
    };
    assert_eq!(rt; lanelet.successors.as_slice(), [2, 1, 2].as_slice());
    assert_eq!(rt; lanelet.predecessors.as_slice(), [2].as_slice());
    assert_eq!(rt; lanelet.adjacent_left, None);
    assert_eq!(rt;
        lanelet
            .adjacent_right
            .map(|beside| (beside.id, beside.same_way)),
        Some((2, true))
    );
    Ok(())
}

fn driven(
    rt: &impl Abort,
    alloc: Global,
    attribute: &'static str,
    same_way: bool,
) -> Result<(), Fail> {
    let beside = format!(in alloc;
        "<adjacentLeft ref='1'{attribute}/><adjacentRight{attribute} ref='1'/>"
    )?;
    let scenario = scenario_of(alloc, &[BOUNDED, beside.as_str(), "</lanelet>", PROBLEM])?;
    let [lanelet] = scenario.lanelets.as_slice() else {
        return Err(Fail::from("one lanelet"));
    };
    for found in [lanelet.adjacent_left, lanelet.adjacent_right] {
        assert_eq!(rt;
            found.map(|beside| (beside.id, beside.same_way)),
            Some((1, same_way)),
            "at {attribute}"
        );
    }
    Ok(())
}

fn spanned(
    rt: &impl Abort,
    alloc: Global,
    span: &'static str,
    first: u32,
    last: u32,
) -> Result<(), Fail> {
    let scenario = scenario_of(
        alloc,
        &[
            STARTED,
            "<velocity>",
            span,
            "</velocity><time>",
            span,
            "</time><orientation>",
            span,
            "</orientation>",
            "</goalState></planningProblem>",
        ],
    )?;
    let [problem] = scenario.problems.as_slice() else {
        return Err(Fail::from("one problem"));
    };
    let [goal] = problem.goals.as_slice() else {
        return Err(Fail::from("one goal"));
    };
    assert_eq!(rt;
        (goal.first_tick, goal.last_tick),
        (first, last),
        "at {span}"
    );
    let (low, high) = (i64::from(first), i64::from(last));
    assert_eq!(rt;
        goal.heading.map(|found| (found.low, found.high)),
        Some((low * 1_000_000, high * 1_000_000)),
        "at {span}"
    );
    assert_eq!(rt;
        goal.speed.map(|found| (found.low, found.high)),
        Some((low * 1000, high * 1000)),
        "at {span}"
    );
    Ok(())
}

#[test]
fn what_is_absent_counts_as_told(rt: HostRuntime) -> Result<(), Fail> {
    let alloc = rt.alloc();
    dropped(&rt, alloc)?;
    for (attribute, same_way) in DIRECTIONS {
        driven(&rt, alloc, attribute, same_way)?;
    }
    for (span, first, last) in SPANS {
        spanned(&rt, alloc, span, first, last)?;
    }
    Ok(())
}
