ghost use Rattle.std.specs.Prelude.{◌≡◌, ◌<◌, ℕ, length, IfOk};
ghost use Rattle.reading.specs.Reading.{Gives};
ghost use Rattle.scenario_xml.specs.Faults.{is_memory};
ghost use Rattle.scenario_xml.specs.Scenarios.{has_id, new_id};
ghost use Rattle.scenario_model.specs.declared.limits.TheConstants.{PAST_IDS};

use crate::element::id_attribute;
use crate::fault::{Kind, ScenarioFault, Wanted};
use element_tree::Tree;
use scenario_model::{Lanelet, Obstacle, Problem};

// What has an id.
pub trait Identified {
    ghost id_of: { Self → ℕ };

    fn id(&self) -> u64
        ensures { result ≡ id_of self.now };
}

impl Identified for Lanelet {
    ghost id_of = { λ l. l.id };

    fn id(&self) -> u64 {
        self.id
    }
}

impl Identified for Obstacle {
    ghost id_of = { λ o. o.id };

    fn id(&self) -> u64 {
        self.id
    }
}

impl Identified for Problem {
    ghost id_of = { λ p. p.id };

    fn id(&self) -> u64 {
        self.id
    }
}

// Whether one of these has the id.
#[tactic(auto, unfolding(crate::specs::Scenarios::has_id))]
fn has_id<T: Identified>(items: &[T], id: u64) -> bool
    ensures { result ≡ has_id T.id_of id items.now }
{
    items.iter().any(|item| item.id() == id)
}

// The id of one more element of a kind, of which there may be so many, after these.
#[tactic(auto, unfolding(crate::specs::Scenarios::new_id))]
pub fn new_id<T: Identified>(
    tree: &Tree<'_>,
    node: u32,
    items: &[T],
    kind: Kind,
    limit: usize,
) -> Result<u64, ScenarioFault>
    requires { node < length tree.now.nodes }
    ensures exact { Gives is_memory (λ id. id) result
        (new_id kind limit T.id_of tree.now node items.now) }
    ensures small { IfOk result (λ id. id < PAST_IDS) }
{
    if items.len() >= limit {
        return Err(ScenarioFault::TooMany(kind));
    }
    let id = id_attribute(tree, node, Wanted::Id)?;
    if has_id(items, id) {
        return Err(ScenarioFault::DuplicateId(id));
    }
    Ok(id)
}
