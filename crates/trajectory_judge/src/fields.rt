ghost use Rattle.std.specs.Prelude.{◌≡◌, ◌≤◌, ◌<◌, length, IsTrue, IfOk, IfSome, unsigned_abs};
ghost use Rattle.std.specs.Prelude.{None};
ghost use Rattle.std.specs.List.{position};
ghost use Rattle.std.specs.Str.{bytes_eq};
ghost use Rattle.preorder.specs.Name.{is_name};
ghost use Rattle.reading.specs.Reading.{Gives};
ghost use Rattle.violation_measures.specs.declared.scene_source.TheConstants.{MAX_MANEUVERS};
ghost use Rattle.trajectory_judge.specs.Faults.{is_memory};
ghost use Rattle.trajectory_judge.specs.Fields.{name_in, measure, tick_in, drive_in, maneuver_in};
ghost use Rattle.trajectory_judge.specs.Fields.{said_by, said};
ghost use Rattle.trajectory_judge.specs.Records.{IsDrive, IsRecordedStep};
ghost use Rattle.trajectory_judge.specs.Rows.{columns};

use crate::fault::RecordFault;
use crate::limits::{
    MAX_RECORDED_COORDINATE, MAX_RECORDED_HEADING, MAX_RECORDED_SPEED, MAX_RECORDED_TICK,
    MAX_RECORDED_TURN,
};
use crate::rows::Fields;
use fixed_decimal::parse_fixed;
use preorder::Name;
use violation_measures::Step;

#[tactic(auto, unfolding(crate::specs::Fields::name_in))]
fn name_in(row: usize, text: &[u8]) -> Result<Name, RecordFault>
    ensures exact { Gives is_memory (λ n. n) result (name_in row text.now) }
    ensures sound { IfOk result (λ n. IsTrue (is_name n)) }
{
    match Name::new(text) {
        Some(name) => Ok(name),
        None => Err(RecordFault::BadName(row)),
    }
}

// The decimal as a whole number of so many places, of at most this size.
#[tactic(auto, unfolding(crate::specs::Fields::measure))]
fn measure(row: usize, places: u8, limit: u64, text: &[u8]) -> Result<i64, RecordFault>
    requires { places ≤ 9 }
    ensures exact { Gives is_memory (λ n. n) result (measure row places limit text.now) }
    ensures size { IfOk result (λ n. unsigned_abs n ≤ limit) }
{
    match parse_fixed(text, places) {
        Ok(number) if number.unsigned_abs() <= limit => Ok(number),
        _ => Err(RecordFault::BadNumber(row)),
    }
}

#[tactic(auto, unfolding(crate::specs::Fields::tick_in))]
fn tick_in(row: usize, text: &[u8]) -> Result<u32, RecordFault>
    ensures exact { Gives is_memory (λ n. n) result (tick_in row text.now) }
    ensures size { IfOk result (λ n. n ≤ MAX_RECORDED_TICK) }
{
    match parse_fixed(text, 0) {
        Ok(number) if 0 <= number && number.unsigned_abs() <= MAX_RECORDED_TICK => {
            Ok(number.unsigned_abs() as u32)
        }
        _ => Err(RecordFault::BadNumber(row)),
    }
}

fn coordinate_in(row: usize, text: &[u8]) -> Result<i64, RecordFault>
    ensures exact { Gives is_memory (λ n. n) result
        (measure row 4 MAX_RECORDED_COORDINATE text.now) }
    ensures size { IfOk result (λ n. unsigned_abs n ≤ MAX_RECORDED_COORDINATE) }
{
    measure(row, 4, MAX_RECORDED_COORDINATE, text)
}

fn speed_in(row: usize, text: &[u8]) -> Result<i64, RecordFault>
    ensures exact { Gives is_memory (λ n. n) result (measure row 3 MAX_RECORDED_SPEED text.now) }
    ensures size { IfOk result (λ n. unsigned_abs n ≤ MAX_RECORDED_SPEED) }
{
    measure(row, 3, MAX_RECORDED_SPEED, text)
}

// Where the vehicle is and how it drives, without its maneuver.
#[tactic(auto, unfolding(crate::specs::Fields::drive_in))]
fn drive_in(row: usize, fields: &Fields<'_>) -> Result<Step, RecordFault>
    ensures exact { Gives is_memory (λ s. s) result
        (drive_in row fields.now.tick.now fields.now.x.now fields.now.y.now
        fields.now.heading.now fields.now.speed.now fields.now.accel.now fields.now.turn.now) }
    ensures sound { IfOk result IsDrive }
{
    let tick = tick_in(row, fields.tick)?;
    let x = coordinate_in(row, fields.x)?;
    let y = coordinate_in(row, fields.y)?;
    let heading = measure(row, 6, MAX_RECORDED_HEADING, fields.heading)?;
    let speed = speed_in(row, fields.speed)?;
    let accel = speed_in(row, fields.accel)?;
    let turn = measure(row, 6, MAX_RECORDED_TURN, fields.turn)?;
    Ok(Step {
        tick,
        x,
        y,
        heading,
        speed,
        accel,
        turn,
        maneuver: None,
    })
}

fn place_of(maneuvers: &[Name], text: &[u8]) -> Option<usize>
    ensures exact { result ≡ position (λ name. bytes_eq name text.now) maneuvers.now }
    ensures inside { IfSome result (λ i. i < length maneuvers.now) }
{
    maneuvers.iter().position(|name| name.as_slice() == text)
}

// None where the field is empty.
#[tactic(auto, unfolding(crate::specs::Fields::maneuver_in))]
fn maneuver_in(row: usize, maneuvers: &[Name], text: &[u8]) -> Result<Option<u32>, RecordFault>
    requires { length maneuvers.now ≤ MAX_MANEUVERS }
    ensures exact { Gives is_memory (λ m. m) result (maneuver_in row maneuvers.now text.now) }
    ensures sound { IfOk result (λ m. IfSome m (λ i. i < length maneuvers.now)) }
{
    if text.is_empty() {
        return Ok(None);
    }
    match place_of(maneuvers, text) {
        Some(place) => Ok(Some(place as u32)),
        None => Err(RecordFault::UnknownManeuver(row)),
    }
}

/// The name and the step that a row says.
#[tactic(auto, unfolding(crate::specs::Fields::said_by))]
pub fn read_fields(
    row: usize,
    fields: &Fields<'_>,
    maneuvers: &[Name],
) -> Result<(Name, Step), RecordFault>
    requires { length maneuvers.now ≤ MAX_MANEUVERS }
    ensures exact { Gives is_memory (λ p. p) result (said maneuvers.now row (columns fields.now)) }
    ensures name { IfOk result (λ p. IsTrue (is_name p.0)) }
    ensures step { IfOk result (λ p. IsRecordedStep (length maneuvers.now) p.1) }
{
    let name = name_in(row, fields.name)?;
    let step = drive_in(row, fields)?;
    let maneuver = maneuver_in(row, maneuvers, fields.maneuver)?;
    Ok((name, Step { maneuver, ..step }))
}
