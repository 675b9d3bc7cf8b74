ghost use Rattle.std.specs.Prelude.{◌≡◌, ◌<◌, ℕ, Result, length, IfErr, OnOk};
ghost use Rattle.std.specs.Bool.{OnFalse};
ghost use Rattle.element_tree.specs.Document.{Document};
ghost use Rattle.element_tree.specs.Trees.{children};
ghost use Rattle.reading.specs.Reading.{Gives, read_all, IsFirstFault};
ghost use Rattle.scenario_xml.specs.Faults.{is_memory};
ghost use Rattle.scenario_xml.specs.declared.fault.ScenarioFault.{ScenarioFault as Fault};

use crate::fault::ScenarioFault;
use element_tree::Tree;
use std::alloc::Global;

// What reads the children of an element one after the other.
pub trait ChildReader {
    // what an element leaves of what was read so far, or its first fault
    ghost step: { Document → ℕ → Self → Result Self Fault };

    // what is so of it between two children
    ghost is_sound: { Self → Type 0 };

    // Reads one child.
    fn read_child(
        &mut self,
        alloc: Global,
        tree: &Tree<'_>,
        child: u32,
    ) -> Result<(), ScenarioFault>
        requires inside { child < length tree.now.nodes }
        requires sound { is_sound self.old }
        ensures exact { Gives is_memory (λ _. self.new) result (step tree.now child self.old) }
        ensures sound { OnOk result (is_sound self.new) };
}

fn each_child<R: ChildReader>(
    reader: &mut R,
    alloc: Global,
    tree: &Tree<'_>,
    node: u32,
) -> Result<(), ScenarioFault>
    requires inside { node < length tree.now.nodes }
    requires sound { R.is_sound reader.old }
    ensures exact { Gives is_memory (λ _. reader.new) result
        (read_all (R.step tree.now) (children tree.now node) reader.old) }
    ensures sound { OnOk result (R.is_sound reader.new) }
{
    let mut next = tree.first_child(node);
    while let Some(child) = next {
        reader.read_child(alloc, tree, child)?;
        next = tree.next_sibling(child);
    }
    Ok(())
}

// Reads all children of an element, up to the first fault.
pub fn read_children<R: ChildReader>(
    reader: &mut R,
    alloc: Global,
    tree: &Tree<'_>,
    node: u32,
) -> Result<(), ScenarioFault>
    requires inside { node < length tree.now.nodes }
    requires sound { R.is_sound reader.old }
    ensures exact { Gives is_memory (λ _. reader.new) result
        (read_all (R.step tree.now) (children tree.now node) reader.old) }
    ensures sound { OnOk result (R.is_sound reader.new) }

    // A fault is that of the first child with a fault: all children before it were read.
    ensures first { IfErr result (λ e. OnFalse (is_memory e)
        (IsFirstFault (λ (_ : ℕ). R.step tree.now) 0 (children tree.now node) reader.old e)) }
{
    each_child(reader, alloc, tree, node)
}
