ghost use Rattle.std.specs.Prelude.{◌≡◌, ◌==◌, All, find, map, IfOk};
ghost use Rattle.std.specs.Option.{option_copied};
ghost use Rattle.scenario_model.specs.Scenario.{IsObstacle, IsShape, IsPose};

use crate::bounded_placement::BoundedPlacement;
use crate::placing::placed_shapes;
use fixed_geometry::Polygon;
use preorder::{List, NoMemory};
use scenario_model::{Obstacle, Pose, Shape};
use std::alloc::Global;

// Shapes placed at a pose.
#[derive(Drop)]
pub(crate) struct Placement {
    pub pose: Pose,
    pub shapes: List<Polygon>,
}

// An obstacle with its shapes placed at each of its states.
#[derive(Drop)]
pub(crate) struct Track {
    pub moving: bool,
    pub placements: List<BoundedPlacement>,
}

// The first placement with the tick.
fn first_at(placements: &[BoundedPlacement], tick: u32) -> Option<&BoundedPlacement>
    ensures { option_copied result ≡ find (λ p. p.pose.tick == tick) placements.now }
{
    placements.iter().find(|p| p.tick() == tick)
}

impl Placement {
    ghost use Rattle.moving_obstacles.specs.Tracks.{placement_of};

    // The shapes at the pose.
    #[tactic(auto, unfolding(crate::specs::Tracks::placement_of))]
    pub(crate) fn new(alloc: Global, pose: Pose, shapes: &[Shape]) -> Result<Placement, NoMemory>
        requires pose { IsPose pose }
        requires shapes { All IsShape shapes.now }
        ensures { IfOk result (λ placement. placement ≡ placement_of shapes.now pose) }
    {
        let shapes = placed_shapes(alloc, pose, shapes)?;
        Ok(Placement { pose, shapes })
    }
}

impl Track {
    ghost use Rattle.moving_obstacles.specs.Tracks.{placement_of, track_of, placement_in};

    // The shapes at each of the poses, in order.
    fn placements(
        alloc: Global,
        states: &[Pose],
        shapes: &[Shape],
    ) -> Result<List<BoundedPlacement>, NoMemory>
        requires states { All IsPose states.now }
        requires shapes { All IsShape shapes.now }
        ensures { IfOk result
            (λ placements. placements ≡ map (placement_of shapes.now) states.now) }
    {
        let mut placements = List::new(alloc);
        for state in states {
            placements.push(BoundedPlacement::new(alloc, *state, shapes)?)?;
        }
        Ok(placements)
    }

    // The obstacle with its shapes placed at each of its states.
    #[tactic(auto, unfolding(crate::specs::Tracks::track_of))]
    pub(crate) fn new(alloc: Global, obstacle: &Obstacle) -> Result<Track, NoMemory>
        requires { IsObstacle obstacle.now }
        ensures { IfOk result (λ track. track ≡ track_of obstacle.now) }
    {
        let shapes = obstacle.shapes.as_slice();
        let placements = Track::placements(alloc, obstacle.states.as_slice(), shapes)?;
        Ok(Track {
            moving: obstacle.moving,
            placements,
        })
    }

    // The first placement with the tick, or the only one where the obstacle stands.
    #[tactic(auto, unfolding(crate::specs::Tracks::placement_in))]
    pub(crate) fn placement_at(&self, tick: u32) -> Option<&BoundedPlacement>
        ensures { option_copied result ≡ placement_in self.now tick }
    {
        let placements = self.placements.as_slice();
        if self.moving {
            first_at(placements, tick)
        } else {
            placements.first()
        }
    }
}
