ghost use Rattle.std.specs.Prelude.{◌≡◌, ◌<◌, ◌≤◌, [], Some, All, length, IfOk, OnOk};
ghost use Rattle.reading.specs.Reading.{Gives, read_all};
ghost use Rattle.signal_features.specs.Signals.{is_memory, with_sign, with_light, signal_step};
ghost use Rattle.signal_features.specs.Sound.{IsSign, IsLight, AreFound};

use crate::fault::{SignalFault, SignalKind};
use crate::form::{is_named, light, sign};
use crate::limits::{MAX_LIGHTS, MAX_SIGNS};
use crate::signals::{Light, SpeedSign};
use element_tree::Tree;
use preorder::List;
use std::alloc::Global;

// The signs and lights that were read so far.
#[derive(Drop)]
pub struct Found {
    pub signs: List<SpeedSign>,
    pub lights: List<Light>,
}

impl Found {
    fn add_sign(&mut self, sign: SpeedSign) -> Result<(), SignalFault>
        requires found { AreFound self.old }
        requires sign { IsSign sign }
        ensures exact { Gives is_memory (λ _. self.new) result (with_sign self.old (Some sign)) }
        ensures sound { OnOk result (AreFound self.new) }
    {
        if self.signs.as_slice().len() >= MAX_SIGNS {
            return Err(SignalFault::TooMany(SignalKind::Sign));
        }
        self.signs.push(sign)?;
        Ok(())
    }

    fn add_light(&mut self, light: Light) -> Result<(), SignalFault>
        requires found { AreFound self.old }
        requires light { IsLight light }
        ensures exact { Gives is_memory (λ _. self.new) result (with_light self.old (Some light)) }
        ensures sound { OnOk result (AreFound self.new) }
    {
        if self.lights.as_slice().len() >= MAX_LIGHTS {
            return Err(SignalFault::TooMany(SignalKind::Light));
        }
        self.lights.push(light)?;
        Ok(())
    }

    // Adds what a child of the root is, if it is a sign or a light.
    #[tactic(auto, unfolding(crate::specs::Signals::signal_step))]
    fn add(&mut self, alloc: Global, tree: &Tree<'_>, node: u32) -> Result<(), SignalFault>
        requires inside { node < length tree.now.nodes }
        requires found { AreFound self.old }
        ensures exact { Gives is_memory (λ _. self.new) result
            (signal_step tree.now node self.old) }
        ensures sound { OnOk result (AreFound self.new) }
    {
        if is_named(tree, b"trafficSign", node) {
            return match sign(tree, node) {
                Some(sign) => self.add_sign(sign),
                None => Ok(()),
            };
        }
        if is_named(tree, b"trafficLight", node) {
            return match light(alloc, tree, node)? {
                Some(light) => self.add_light(light),
                None => Ok(()),
            };
        }
        Ok(())
    }
}

// The signs and lights among these children of the root.
#[tactic(auto, using(crate::proofs::Loops::items_go_on, crate::proofs::Loops::items_stop, crate::proofs::Loops::items_done))]
pub fn all_found(alloc: Global, tree: &Tree<'_>, nodes: &[u32]) -> Result<Found, SignalFault>
    requires inside { All (λ k. k < length tree.now.nodes) nodes.now }
    ensures exact { Gives is_memory (λ s. s) result (read_all (signal_step tree.now) nodes.now
        (record { signs = []; lights = [] })) }
    ensures sound { IfOk result AreFound }
{
    let mut found = Found {
        signs: List::new(alloc),
        lights: List::new(alloc),
    };
    for node in nodes {
        found.add(alloc, tree, *node)?;
    }
    Ok(found)
}
