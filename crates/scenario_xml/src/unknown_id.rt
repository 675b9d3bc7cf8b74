ghost use Rattle.std.specs.Prelude.{◌≡◌, ℕ, List, Option};
ghost use Rattle.scenario_xml.specs.Scenarios.{first_in, unknown_in_region, unknown_in_goal};
ghost use Rattle.scenario_xml.specs.Scenarios.{unknown_in_problem};

use crate::known_ids::KnownIds;
use scenario_model::{Goal, Problem, Region};

// What may refer to lanelets.
pub trait Refers {
    // the first lanelet that it refers to and that is not known
    ghost unknown_id: { List ℕ → Self → Option ℕ };

    fn unknown_id(&self, known_ids: &KnownIds) -> Option<u64>
        ensures { result ≡ unknown_id known_ids.now self.now };
}

// The first lanelet that one of these refers to and that is not known.
#[tactic(auto, using(crate::proofs::Unknowns::found_in, crate::proofs::Unknowns::none_in, crate::proofs::Unknowns::no_more))]
pub fn first_unknown<T: Refers>(items: &[T], known_ids: &KnownIds) -> Option<u64>
    ensures { result ≡ first_in (T.unknown_id known_ids.now) items.now }
{
    for item in items {
        if let Some(id) = item.unknown_id(known_ids) {
            return Some(id);
        }
    }
    None
}

impl Refers for Region {
    ghost unknown_id = { unknown_in_region };

    fn unknown_id(&self, known_ids: &KnownIds) -> Option<u64> {
        match self {
            Region::OnLanelet(id) if !known_ids.holds(*id) => Some(*id),
            _ => None,
        }
    }
}

impl Refers for Goal {
    ghost unknown_id = { unknown_in_goal };

    fn unknown_id(&self, known_ids: &KnownIds) -> Option<u64> {
        first_unknown(self.regions.as_slice(), known_ids)
    }
}

impl Refers for Problem {
    ghost unknown_id = { unknown_in_problem };

    fn unknown_id(&self, known_ids: &KnownIds) -> Option<u64> {
        first_unknown(self.goals.as_slice(), known_ids)
    }
}
