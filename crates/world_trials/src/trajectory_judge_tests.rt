use preorder::{List, Name};
use std::test::Fail;
use trajectory_judge::read_records;
use violation_measures::Step;

const HEADER: &str = "name,tick,x,y,heading,speed,accel,turn,maneuver\n";

// What is refused, and how recordings are judged, is told by the rows of `judge`.
#[test]
fn numbers_are_read_in_their_units(rt: HostRuntime) -> Result<(), Fail> {
    let rows =
        "r0,3,1.00005,-2,0.5,10,-1.5,0.000001,q\nr0,4,1e3,+.5,-1,-1,1,-1,\nr1,0,0,0,0,0,0,0,p\n";
    let text = format!(in rt.alloc(); "{HEADER}{rows}")?;
    let mut names = List::new(rt.alloc());
    names.push(Name::new(b"p").ok_or("a name")?)?;
    names.push(Name::new(b"q").ok_or("a name")?)?;
    let records = read_records(rt.alloc(), text.as_bytes(), names.as_slice())
        .ok()
        .ok_or("recordings")?;
    let [first, second] = records.runs.as_slice() else {
        return Err(Fail::new("two recordings"));
    };
    assert!(rt; first.name.as_slice() == b"r0".as_slice());
    assert!(rt; second.name.as_slice() == b"r1".as_slice());
    let [start, end] = first.steps.as_slice() else {
        return Err(Fail::new("two steps"));
    };
    let step = Step {
        tick: 3,
        x: 10_001,
        y: -20_000,
        heading: 500_000,
        speed: 10_000,
        accel: -1_500,
        turn: 1,
        maneuver: Some(1),
    };
    assert_eq!(rt; *start, step);
    let step = Step {
        tick: 4,
        x: 10_000_000,
        y: 5_000,
        heading: -1_000_000,
        speed: -1_000,
        accel: 1_000,
        turn: -1_000_000,
        maneuver: None,
    };
    assert_eq!(rt; *end, step);
    assert_eq!(rt; second.steps.as_slice().len(), 1);
    Ok(())
}
