ghost use Rattle.std.specs.Prelude.{◌≡◌, ◌≤◌, ◌<◌, ◌≤ℤ◌, true, false, IfOk, IfErr};
ghost use Rattle.std.specs.Prelude.{unsigned_abs};
ghost use Rattle.reading.specs.Reading.{Gives};
ghost use Rattle.scenario_xml.specs.Faults.{is_memory};
ghost use Rattle.scenario_xml.specs.Numbers.{places, least, most, limit, is_in_range, number_in};
ghost use Rattle.scenario_xml.specs.Numbers.{id_in};
ghost use Rattle.scenario_model.specs.declared.limits.TheConstants.{PAST_IDS};

use crate::fault::ScenarioFault;
use crate::limits::MAX_ID_DIGITS;
use fixed_decimal::{MAX_VALUE, parse_fixed};
use reading::number_in as digits_in;
use scenario_model::{MAX_COORDINATE, MAX_HEADING, MAX_SPEED, MAX_STEP_MICROS, MAX_TICK};

/// What a number counts.
#[derive(Clone, Copy, Debug, PartialEq, Eq)]
pub enum Quantity {
    /// A coordinate, in 0.1 mm, at most `MAX_COORDINATE` in size.
    Coordinate,
    /// A side or a radius, in 0.1 mm. Its limits are those of a shape.
    Side,
    /// An angle, in microradians, at most `MAX_HEADING` in size.
    Angle,
    /// A speed, in mm/s, at most `MAX_SPEED` in size.
    Speed,
    /// A time, in ticks, 0 to `MAX_TICK`.
    Tick,
    /// How long a tick is, in microseconds, 1 to `MAX_STEP_MICROS`.
    Step,
}

impl Quantity {
    // How many digits after the point are read.
    fn places(self) -> u8
        ensures exact { result ≡ places self }
        ensures few { result ≤ 9 }
    {
        match self {
            Quantity::Coordinate | Quantity::Side => 4,
            Quantity::Angle | Quantity::Step => 6,
            Quantity::Speed => 3,
            Quantity::Tick => 0,
        }
    }

    fn least(self) -> i64
        ensures { result ≡ least self }
    {
        match self {
            Quantity::Coordinate => -(MAX_COORDINATE as i64),
            Quantity::Side => -(MAX_VALUE as i64),
            Quantity::Angle => -(MAX_HEADING as i64),
            Quantity::Speed => -(MAX_SPEED as i64),
            Quantity::Tick => 0,
            Quantity::Step => 1,
        }
    }

    fn most(self) -> i64
        ensures { result ≡ most self }
    {
        match self {
            Quantity::Coordinate => MAX_COORDINATE as i64,
            Quantity::Side => MAX_VALUE as i64,
            Quantity::Angle => MAX_HEADING as i64,
            Quantity::Speed => MAX_SPEED as i64,
            Quantity::Tick => i64::from(MAX_TICK),
            Quantity::Step => MAX_STEP_MICROS,
        }
    }

    #[tactic(auto, unfolding(crate::specs::Numbers::is_in_range), using(crate::proofs::Sizes::within_limit))]
    fn holds(self, number: i64) -> bool
        ensures exact { result ≡ is_in_range self number }
        ensures low { result ≡ true → least self ≤ℤ number }
        ensures high { result ≡ true → number ≤ℤ most self }
        ensures size { result ≡ true → unsigned_abs number ≤ limit self }
    {
        self.least() <= number && number <= self.most()
    }
}

// The number that a text is, of an element at a place.
#[tactic(auto, unfolding(crate::specs::Numbers::number_in))]
pub fn number_in(place: usize, text: &[u8], quantity: Quantity) -> Result<i64, ScenarioFault>
    ensures exact { Gives is_memory (λ n. n) result (number_in place quantity text.now) }
    ensures low { IfOk result (λ n. least quantity ≤ℤ n) }
    ensures high { IfOk result (λ n. n ≤ℤ most quantity) }
    ensures size { IfOk result (λ n. unsigned_abs n ≤ limit quantity) }
    ensures sure { IfErr result (λ fault. is_memory fault ≡ false) }
{
    match parse_fixed(text, quantity.places()) {
        Ok(number) if quantity.holds(number) => Ok(number),
        _ => Err(ScenarioFault::BadNumber(place)),
    }
}

// The id that a text is, of an element at a place.
#[tactic(auto, unfolding(crate::specs::Numbers::id_in), using(crate::proofs::Ids::short_number))]
pub fn id_in(place: usize, text: &[u8]) -> Result<u64, ScenarioFault>
    ensures exact { Gives is_memory (λ id. id) result (id_in place text.now) }
    ensures small { IfOk result (λ id. id < PAST_IDS) }
    ensures sure { IfErr result (λ fault. is_memory fault ≡ false) }
{
    if text.len() > MAX_ID_DIGITS {
        return Err(ScenarioFault::BadNumber(place));
    }
    match digits_in(text) {
        Some(id) => Ok(id),
        None => Err(ScenarioFault::BadNumber(place)),
    }
}
