ghost use Rattle.std.specs.Prelude.{◌≡◌, true, filter, All, IfOk};
ghost use Rattle.scenario_model.specs.Scenario.{IsKnown};
ghost use Rattle.scenario_xml.specs.Lanelets.{is_known};

use preorder::{List, NoMemory};
use std::alloc::Global;
use std::collections::BTreeSet;
use std::marker::Model;

// The ids of the lanelets of a document, and a table of them.
#[derive(Drop)]
pub struct KnownIds {
    ids: List<u64>,
    table: BTreeSet<u64>,
}

impl Model for KnownIds {
    ghost use Rattle.std.specs.Prelude.{◌≡◌, ℕ, List as Items, nat_eq};
    ghost use Rattle.std.specs.List.{list_any};
    ghost use Rattle.std.specs.Ordering.{nat_cmp};
    ghost use Rattle.std.specs.BTreeSet as tree;

    ghost Value = { Items ℕ };

    ghost view = { λ k. k.ids };

    ghost invariant = { λ k. (q : ℕ)
        → tree.contains nat_cmp k.table q ≡ list_any (nat_eq q) k.ids };
}

impl KnownIds {
    // The table of these ids.
    pub fn of(alloc: Global, ids: List<u64>) -> Result<KnownIds, NoMemory>
        ensures { IfOk result (λ known_ids. known_ids ≡ ids) }
    {
        let mut table = BTreeSet::new(alloc);
        for id in ids.as_slice() {
            table.insert(*id)?;
        }
        Ok(KnownIds { ids, table })
    }

    // Whether the id is one of these.
    #[tactic(auto, unfolding(crate::specs::Lanelets::is_known), using(crate::proofs::SoundLaws::is_one))]
    pub fn holds(&self, id: u64) -> bool
        ensures exact { result ≡ is_known self.now id }
        ensures known_ids { result ≡ true → IsKnown self.now id }
    {
        self.table.contains(&id)
    }

    // Those of some ids that are of these.
    pub fn only(&self, alloc: Global, ids: &[u64]) -> Result<List<u64>, NoMemory>
        ensures exact { IfOk result (λ kept. kept ≡ filter (is_known self.now) ids.now) }
        ensures known_ids { IfOk result (All (IsKnown self.now)) }
    {
        let mut kept = List::new(alloc);
        for id in ids {
            if self.holds(*id) {
                kept.push(*id)?;
            }
        }
        Ok(kept)
    }
}
