ghost use Rattle.std.specs.Prelude.{◌≡◌, ◌==◌, ◌≤ℤ◌, pos, find, slice_get, IfOk, IfSome, IsTrue};
ghost use Rattle.std.specs.Option.{option_copied};
ghost use Rattle.std.specs.List.{fold};
ghost use Rattle.std.specs.Int.{int_min};
ghost use Rattle.fixed_geometry.specs.Boxes.{bounds as bounds_of, IsBoxInRange};
ghost use Rattle.fixed_geometry.specs.Polygon.{IsCornerList};
ghost use Rattle.scenario_model.specs.Scenario.{IsObstacle};
ghost use Rattle.moving_obstacles.specs.Nearness.{is_met, gaps};
ghost use Rattle.moving_obstacles.specs.Ticks.{RiseFrom, RisesFrom};

use crate::bounded_placement::BoundedPlacement;
use crate::track::Track;
use fixed_geometry::{Box2, Point, Polygon};
use preorder::NoMemory;
use scenario_model::{Obstacle, Pose};
use std::alloc::Global;
use std::marker::Model;

// A track whose placements are found by their places, where their ticks rise by one from the first
// tick on.
#[derive(Drop)]
pub(crate) struct IndexedTrack {
    track: Track,
    first_tick: Option<u32>,
}

impl Model for IndexedTrack {
    ghost use Rattle.std.specs.Prelude.{IfSome};
    ghost use Rattle.moving_obstacles.specs.declared.track.Track.{Track as Placed};
    ghost use Rattle.moving_obstacles.specs.Ticks.{RisesFrom};

    ghost Value = { Placed };

    ghost view = { λ indexed. indexed.track };

    ghost invariant = { λ indexed.
        IfSome indexed.first_tick (λ tick. RisesFrom tick indexed.track) };
}

// Whether the ticks rise by one, from the first tick on.
fn do_rise(placements: &[BoundedPlacement], first: u32) -> bool
    ensures { IsTrue result → RiseFrom first placements.now }
{
    let mut next = u64::from(first);
    for placement in placements {
        if u64::from(placement.tick()) != next {
            return false;
        }
        next += 1;
    }
    true
}

// The first tick of a track that moves, where the ticks rise by one from it on.
fn first_tick(track: &Track) -> Option<u32>
    ensures { IfSome result (λ tick. RisesFrom tick track.now) }
{
    let placements = track.placements.as_slice();
    let first = placements.first()?.tick();
    if track.moving && do_rise(placements, first) {
        Some(first)
    } else {
        None
    }
}

// The placement at the place, where there is one.
fn placement_at(placements: &[BoundedPlacement], place: usize) -> Option<&BoundedPlacement>
    ensures { option_copied result ≡ slice_get placements.now place }
{
    if place < placements.len() {
        Some(&placements[place])
    } else {
        None
    }
}

// The placement of the tick, by its place.
fn placement_from(
    placements: &[BoundedPlacement],
    first: u32,
    tick: u32,
) -> Option<&BoundedPlacement>
    requires { RiseFrom first placements.now }
    ensures { option_copied result ≡ find (λ p. p.pose.tick == tick) placements.now }
{
    if tick < first {
        None
    } else {
        placement_at(placements, (tick - first) as usize)
    }
}

impl IndexedTrack {
    ghost use Rattle.moving_obstacles.specs.Tracks.{track_of, placement_in, pose_in, shapes_in};

    // The obstacle with its shapes placed at each of its states.
    pub(crate) fn new(alloc: Global, obstacle: &Obstacle) -> Result<IndexedTrack, NoMemory>
        requires { IsObstacle obstacle.now }
        ensures { IfOk result (λ track. track ≡ track_of obstacle.now) }
    {
        let track = Track::new(alloc, obstacle)?;
        let first_tick = first_tick(&track);
        Ok(IndexedTrack { track, first_tick })
    }

    // The first placement with the tick, or the only one where the obstacle stands.
    #[tactic(auto, unfolding(crate::specs::Tracks::placement_in))]
    pub(crate) fn placement_at(&self, tick: u32) -> Option<&BoundedPlacement>
        ensures { option_copied result ≡ placement_in self.now tick }
    {
        match self.first_tick {
            Some(first) => placement_from(self.track.placements.as_slice(), first, tick),
            None => self.track.placement_at(tick),
        }
    }

    // The tick of the last placement; 0 where there is none.
    pub(crate) fn last_tick(&self) -> u32 {
        match self.track.placements.as_slice().last() {
            Some(placement) => placement.tick(),
            None => 0,
        }
    }

    // Where the obstacle is at the tick, if anywhere.
    #[tactic(auto, unfolding(crate::specs::Tracks::pose_in))]
    pub(crate) fn pose_at(&self, tick: u32) -> Option<Pose>
        ensures { result ≡ pose_in self.now tick }
    {
        match self.placement_at(tick) {
            Some(placement) => Some(placement.pose()),
            None => None,
        }
    }

    // The shapes placed at that pose.
    #[tactic(auto, unfolding(crate::specs::Tracks::shapes_in))]
    pub(crate) fn shapes_at(&self, tick: u32) -> Option<&[Polygon]>
        ensures { option_copied result ≡ shapes_in self.now tick }
    {
        match self.placement_at(tick) {
            Some(placement) => Some(placement.shapes()),
            None => None,
        }
    }

    // Whether the polygon, whose least box is given, meets one of the shapes at the tick.
    #[tactic(auto, unfolding(crate::specs::Nearness::is_met, crate::specs::Tracks::shapes_in))]
    pub(crate) fn is_met(&self, ego: &[Point], ego_bounds: Box2, tick: u32) -> bool
        requires ego { IsCornerList ego.now }
        requires bounds { ego_bounds ≡ bounds_of ego.now }
        requires in_range { IsBoxInRange ego_bounds }
        ensures { result ≡ is_met ego.now (shapes_in self.now tick) }
    {
        match self.placement_at(tick) {
            Some(placement) => placement.is_met(ego, ego_bounds),
            None => false,
        }
    }

    // The least of `least` and the gaps to the shapes at the tick.
    #[tactic(auto, unfolding(crate::specs::Nearness::gaps, crate::specs::Tracks::shapes_in))]
    pub(crate) fn least_gap(&self, ego: Box2, tick: u32, least: i64) -> i64
        requires ego { IsBoxInRange ego }
        requires least { pos 0 ≤ℤ least }
        ensures value { result ≡ fold int_min least (gaps ego (shapes_in self.now tick)) }
        ensures low { pos 0 ≤ℤ result }
    {
        match self.placement_at(tick) {
            Some(placement) => placement.least_gap(ego, least),
            None => least,
        }
    }
}
