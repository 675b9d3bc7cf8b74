ghost use Rattle.std.specs.Prelude.{◌≡◌, IfOk, IsTrue};
ghost use Rattle.preorder.specs.Name.{is_name};
ghost use Rattle.sample_scene.specs.Maneuvers.{class, classes, lattice};

use crate::literal::name;
use crate::maneuvers::maneuvers;
use maneuver_lattice::{Class, Lattice};
use preorder::{List, NoMemory};
use std::alloc::Global;

fn class(text: &[u8], speed: u32) -> Class
    requires { IsTrue (is_name text.now) }
    ensures { result ≡ class text.now speed }
{
    Class {
        name: name(text),
        heading: 0,
        speed: i64::from(speed),
    }
}

#[tactic(auto, unfolding(preorder::specs::Name::is_name))]
fn classes(alloc: Global) -> Result<List<Class>, NoMemory>
    ensures { IfOk result (λ them. them ≡ classes) }
{
    let mut classes = List::new(alloc);
    classes.push(class(b"slow", 5_000))?;
    classes.push(class(b"mid", 10_000))?;
    classes.push(class(b"fast", 15_000))?;
    Ok(classes)
}

/// The lattice.
#[tactic(auto, unfolding(crate::specs::Maneuvers::lattice))]
pub fn lattice(alloc: Global) -> Result<Lattice, NoMemory>
    ensures { IfOk result (λ it. it ≡ lattice) }
{
    Ok(Lattice {
        horizon: 30,
        length: 45_000,
        width: 18_000,
        tolerance: 0,
        classes: classes(alloc)?,
        maneuvers: maneuvers(alloc)?,
    })
}
