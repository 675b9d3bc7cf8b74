ghost use Rattle.std.specs.Prelude.{◌≡◌, ◌≤◌, All, length, IfOk};
ghost use Rattle.violation_measures.specs.Steps.{IsStep};
ghost use Rattle.world_trials.specs.Dials.{dials, dials_sound};

use preorder::{List, Name, NoMemory};
use rule_language::{Argument, read_book};
use scenario_model::Span;
use std::alloc::Global;
use std::cell::Cell;
use std::test::Fail;
use violation_measures::{FeatureSource, Step, bind};

// A hundred dials. It counts how often one is read.
#[derive(Drop)]
struct Dials {
    readings: Cell<u64>,
}

impl FeatureSource for Dials {
    ghost features = { λ _. dials };

    fn find(&self, name: &Name, argument: Option<&Argument>) -> Option<u32> {
        if name.as_slice() != b"dial".as_slice() {
            return None;
        }
        match argument {
            Some(Argument::Number(n)) if *n < 100 => Some(*n as u32),
            _ => None,
        }
    }

    fn bounds(&self, _feature: u32) -> Span {
        Span { low: 0, high: 100 }
    }

    fn value(&self, feature: u32, _step: &Step) -> i64 {
        self.readings.set(self.readings.get().saturating_add(1));
        i64::from(feature.min(100))
    }

    ghost sound = { λ _. dials_sound };
}

// A step at the origin.
fn step(tick: u16) -> Step
    ensures { IsStep result }
{
    Step {
        tick: u32::from(tick),
        x: 0,
        y: 0,
        heading: 0,
        speed: 0,
        accel: 0,
        turn: 0,
        maneuver: None,
    }
}

fn ticks(alloc: Global, count: u16) -> Result<List<Step>, NoMemory>
    ensures few { IfOk result (λ steps. length steps ≡ count) }
    ensures each { IfOk result (All IsStep) }
{
    let mut steps = List::new(alloc);
    for tick in 0..count {
        steps.push(step(tick))?;
    }
    Ok(steps)
}

// What a book amounts to over steps.
fn violations<S: FeatureSource>(
    alloc: Global,
    source: &S,
    book: &str,
    steps: &[Step],
) -> Result<Vec<u64>, Fail>
    requires few { length steps.now ≤ 2000 }
    requires steps { All IsStep steps.now }
{
    let book = read_book(alloc, book.as_bytes()).ok().ok_or("a book")?;
    let bound = bind(alloc, &book, source).ok().ok_or("bound")?;
    let vector = bound.trajectory_vector(alloc, source, steps)?;
    Ok(vector.as_slice().to_vec(alloc)?)
}

// What features amount to over a scene is told by the rows of `judge`.
#[test]
fn what_is_used_is_measured_once_a_step(rt: HostRuntime) -> Result<(), Fail> {
    let alloc = rt.alloc();
    let rows = [
        ("part a 1 5 + 2 * 3", 33, 0),
        ("part a 1 dial(1) + dial(2)", 9, 6),
        (
            "part a 1 dial(1) * dial(1)\npart a 1 dial(1)\nrule b\npart b 1 dial(1)",
            6,
            3,
        ),
        ("part a 1 if(dial(0), dial(3), dial(4))", 12, 9),
        ("final a 1 dial(1)\nfinal a 2 dial(1)", 3, 1),
        ("part a 1 dial(2)\nfinal a 1 dial(2) + dial(3)", 11, 5),
    ];
    let steps = ticks(alloc, 3)?;
    for (parts, expected, readings) in rows {
        let dials = Dials {
            readings: Cell::new(0),
        };
        let book = format!(in alloc; "rule a\n{parts}")?;
        let vector = violations(alloc, &dials, &book, steps.as_slice())?;
        assert_eq!(rt; vector.first().copied(), Some(expected), "{parts}");
        assert_eq!(rt; dials.readings.get(), readings, "{parts}");
    }
    Ok(())
}

// A part for each of the dials below the number, eight to a rule.
fn many_dials(alloc: Global, count: u32) -> Result<String, Fail> {
    let mut book = String::new(alloc);
    for i in 0..count {
        if i % 8 == 0 {
            book.push_str(&format!(in alloc; "rule r{i}\n")?)?;
        }
        book.push_str(&format!(in alloc; "part r{} 1 dial({i}) + dial({i})\n", i - i % 8)?)?;
    }
    Ok(book)
}

#[test]
fn features_past_the_most_are_measured_where_they_stand(rt: HostRuntime) -> Result<(), Fail> {
    let alloc = rt.alloc();
    for (count, readings) in [(64, 64), (65, 66), (80, 96)] {
        let dials = Dials {
            readings: Cell::new(0),
        };
        let book = many_dials(alloc, count)?;
        let vector = violations(alloc, &dials, &book, ticks(alloc, 1)?.as_slice())?;
        let last = u64::from(count) - 1;
        let sum = vector.iter().fold(0, |sum: u64, n| sum.saturating_add(*n));
        assert_eq!(rt; sum, last * (last + 1));
        assert_eq!(rt; dials.readings.get(), readings);
    }
    Ok(())
}
