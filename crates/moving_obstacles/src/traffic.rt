ghost use Rattle.std.specs.Prelude.{◌≡◌, ◌<◌, ◌≤◌, ◌≤ℤ◌, pos, unsigned_abs, All, length, map};
ghost use Rattle.std.specs.Prelude.{count_by, slice_get, option_and_then, IfOk, IfSome};
ghost use Rattle.std.specs.List.{flat_map};
ghost use Rattle.std.specs.Option.{option_copied};
ghost use Rattle.fixed_geometry.specs.Plane.{IsWithin, IsInRange};
ghost use Rattle.fixed_geometry.specs.Boxes.{bounds as bounds_of, IsBoxInRange};
ghost use Rattle.fixed_geometry.specs.Polygon.{IsCornerList};
ghost use Rattle.fixed_geometry.specs.declared.limits.TheConstants.{MAX_ANGLE, MICROS_PER_UNIT};
ghost use Rattle.scenario_model.specs.Scenario.{IsObstacle, IsScenario};
ghost use Rattle.scenario_model.specs.declared.limits.TheConstants.{MAX_OBSTACLES};
ghost use Rattle.moving_obstacles.specs.Occupancy.{occupancy};
ghost use Rattle.moving_obstacles.specs.Nearness.{is_met, gaps, distances, least, IsLeast};
ghost use Rattle.moving_obstacles.specs.Nearness.{meeting, all_gaps, nearest_gap};
ghost use Rattle.moving_obstacles.specs.Nearness.{all_distances, headway};
ghost use Rattle.moving_obstacles.specs.Present.{ArePresent};
ghost use Rattle.moving_obstacles.specs.Tracks.{track_of, IsTrafficOf, ForObstacles, shapes_in};
ghost use Rattle.moving_obstacles.specs.Tracks.{pose_in, occupancy_in, meeting_in};
ghost use Rattle.moving_obstacles.specs.Tracks.{nearest_gap_in, headway_in};

use crate::ahead::least_distance;
use crate::indexed_track::IndexedTrack;
use crate::limits::MAX_DISTANCE;
use crate::moment::{self, Moment, moments_of};
use crate::presence::Presence;
use fixed_geometry::{Box2, Point, Polygon, bounds, direction};
use preorder::{List, NoMemory};
use scenario_model::{Obstacle, Scenario};
use std::alloc::Global;
use std::marker::Model;

// How many of the obstacles meet the polygon at the tick.
fn count_met(tracks: &[IndexedTrack], ego: &[Point], ego_bounds: Box2, tick: u32) -> usize
    requires ego { IsCornerList ego.now }
    requires bounds { ego_bounds ≡ bounds_of ego.now }
    requires in_range { IsBoxInRange ego_bounds }
    ensures value { result ≡ count_by (λ t. is_met ego.now (shapes_in t tick)) tracks.now }
    ensures most { result ≤ length tracks.now }
{
    tracks
        .iter()
        .filter(|track| track.is_met(ego, ego_bounds, tick))
        .count()
}

// The least gap to one of the obstacles at the tick.
#[tactic(auto, unfolding(crate::specs::Nearness::least))]
fn least_gap_of_all(tracks: &[IndexedTrack], ego: Box2, tick: u32) -> i64
    requires { IsBoxInRange ego }
    ensures value { result ≡ least (flat_map (λ t. gaps ego (shapes_in t tick)) tracks.now) }
    ensures low { pos 0 ≤ℤ result }
    ensures high { result ≤ℤ MAX_DISTANCE }
{
    let mut nearest = MAX_DISTANCE;
    for track in tracks {
        nearest = track.least_gap(ego, tick, nearest);
    }
    nearest
}

// The least distance to one of the obstacles that are ahead at the tick.
#[tactic(auto, unfolding(crate::specs::Nearness::least))]
fn least_distance_of_all(
    tracks: &[IndexedTrack],
    position: Point,
    unit: Point,
    width: i64,
    tick: u32,
) -> i64
    requires { IsWithin MICROS_PER_UNIT unit }
    ensures value { result
        ≡ least (flat_map (λ t. distances position unit width (pose_in t tick)) tracks.now) }
    ensures low { pos 0 ≤ℤ result }
    ensures high { result ≤ℤ MAX_DISTANCE }
{
    let mut nearest = MAX_DISTANCE;
    for track in tracks {
        nearest = least_distance(position, unit, width, track.pose_at(tick), nearest);
    }
    nearest
}

// How many of the obstacles meet the polygon at the tick, where what is present then may be listed.
fn count_met_at(
    tracks: &[IndexedTrack],
    present: Option<&[Presence]>,
    ego: &[Point],
    ego_bounds: Box2,
    tick: u32,
) -> usize
    requires present { IfSome present (λ p. ArePresent tracks.now tick p.now) }
    requires ego { IsCornerList ego.now }
    requires bounds { ego_bounds ≡ bounds_of ego.now }
    requires in_range { IsBoxInRange ego_bounds }
    ensures value { result ≡ count_by (λ t. is_met ego.now (shapes_in t tick)) tracks.now }
    ensures most { result ≤ length tracks.now }
{
    match present {
        Some(present) => moment::count_met(tracks, present, ego, ego_bounds, tick),
        None => count_met(tracks, ego, ego_bounds, tick),
    }
}

// The least gap to one of the obstacles at the tick, where what is present then may be listed.
fn least_gap_at(tracks: &[IndexedTrack], present: Option<&[Presence]>, ego: Box2, tick: u32) -> i64
    requires present { IfSome present (λ p. ArePresent tracks.now tick p.now) }
    requires ego { IsBoxInRange ego }
    ensures value { result ≡ least (flat_map (λ t. gaps ego (shapes_in t tick)) tracks.now) }
    ensures low { pos 0 ≤ℤ result }
    ensures high { result ≤ℤ MAX_DISTANCE }
{
    match present {
        Some(present) => moment::least_gap(tracks, present, ego, tick),
        None => least_gap_of_all(tracks, ego, tick),
    }
}

// The least distance to one of the obstacles that are ahead at the tick, where what is present then
// may be listed.
fn least_distance_at(
    tracks: &[IndexedTrack],
    present: Option<&[Presence]>,
    position: Point,
    unit: Point,
    width: i64,
    tick: u32,
) -> i64
    requires present { IfSome present (λ p. ArePresent tracks.now tick p.now) }
    requires unit { IsWithin MICROS_PER_UNIT unit }
    ensures value { result
        ≡ least (flat_map (λ t. distances position unit width (pose_in t tick)) tracks.now) }
    ensures low { pos 0 ≤ℤ result }
    ensures high { result ≤ℤ MAX_DISTANCE }
{
    match present {
        Some(present) => moment::least_distance(present, position, unit, width),
        None => least_distance_of_all(tracks, position, unit, width, tick),
    }
}

// The obstacles with their shapes placed.
fn tracks_of(alloc: Global, obstacles: &[Obstacle]) -> Result<List<IndexedTrack>, NoMemory>
    requires { All IsObstacle obstacles.now }
    ensures { IfOk result (λ tracks. tracks ≡ map track_of obstacles.now) }
{
    let mut tracks = List::new(alloc);
    for obstacle in obstacles {
        tracks.push(IndexedTrack::new(alloc, obstacle)?)?;
    }
    Ok(tracks)
}

/// The obstacles of a scenario, with their shapes placed at each of their states.
///
/// Clauses speak of the obstacles that the traffic was made of, by `IsTrafficOf`.
#[derive(Drop)]
pub struct Traffic {
    tracks: List<IndexedTrack>,
    // What is present at each of the first ticks.
    moments: List<Moment>,
}

impl Model for Traffic {
    ghost use Rattle.std.specs.Prelude.{◌≤◌, List, length};
    ghost use Rattle.scenario_model.specs.declared.limits.TheConstants.{MAX_OBSTACLES};
    ghost use Rattle.moving_obstacles.specs.declared.track.Track.{Track as Placed};

    ghost Value = { List Placed };

    ghost view = { λ traffic. traffic.tracks };

    ghost use Rattle.moving_obstacles.specs.Present.{AreMoments};

    ghost invariant = { λ traffic. (length traffic.tracks ≤ MAX_OBSTACLES)
        × AreMoments traffic.tracks traffic.moments };
}

impl Traffic {
    /// The traffic of the scenario's obstacles, in document order. It fails for want of memory
    /// alone.
    pub fn new(alloc: Global, scenario: &Scenario) -> Result<Traffic, NoMemory>
        requires { IsScenario scenario.now }
        ensures all { IfOk result (IsTrafficOf scenario.now.obstacles) }
        ensures len { IfOk result (λ traffic. length traffic ≡ length scenario.now.obstacles) }
    {
        let tracks = tracks_of(alloc, scenario.obstacles.as_slice())?;
        let moments = moments_of(alloc, tracks.as_slice())?;
        Ok(Traffic { tracks, moments })
    }

    // What is present at the tick, where that is listed.
    fn present(&self, tick: u32) -> Option<&[Presence]>
        ensures { IfSome result (λ present. ArePresent self.now tick present.now) }
    {
        let moments = self.moments.as_slice();
        let place = tick as usize;
        if place < moments.len() {
            Some(moments[place].present())
        } else {
            None
        }
    }

    /// The number of obstacles, those that stand among them: at most `MAX_OBSTACLES`.
    pub fn count(&self) -> usize
        ensures value { result ≡ length self.now }
        ensures few { result ≤ MAX_OBSTACLES }
        ensures all { ForObstacles self.now (λ obstacles. result ≡ length obstacles) }
    {
        self.tracks.as_slice().len()
    }

    /// The shapes of the obstacle at the index, placed where it is at the tick, in 0.1 mm. None
    /// where it is nowhere then.
    ///
    /// The index is below the count.
    #[tactic(auto, unfolding(crate::specs::Tracks::occupancy_in))]
    pub fn occupancy(&self, index: usize, tick: u32) -> Option<&[Polygon]>
        requires { index < length self.now }
        ensures value { option_copied result ≡ occupancy_in self.now index tick }
        ensures all { ForObstacles self.now (λ obstacles. option_copied result
            ≡ option_and_then (λ o. occupancy o tick) (slice_get obstacles index)) }
    {
        let tracks = self.tracks.as_slice();
        tracks[index].shapes_at(tick)
    }

    /// How many obstacles have a shape that meets the polygon at the tick, touching included: at
    /// most `MAX_OBSTACLES`.
    ///
    /// The corners are `MIN_POLYGON_CORNERS` to `MAX_POLYGON_CORNERS` points in range.
    #[tactic(auto, unfolding(crate::specs::Tracks::meeting_in))]
    pub fn meeting(&self, ego: &[Point], tick: u32) -> u32
        requires { IsCornerList ego.now }
        ensures value { result ≡ meeting_in self.now ego.now tick }
        ensures all { ForObstacles self.now
            (λ obstacles. result ≡ meeting obstacles ego.now tick) }
        ensures most { result ≤ MAX_OBSTACLES }
    {
        let tracks = self.tracks.as_slice();
        count_met_at(tracks, self.present(tick), ego, bounds(ego), tick) as u32
    }

    /// The least box gap to a shape of an obstacle at the tick, in 0.1 mm: 0 to `MAX_DISTANCE`, and
    /// `MAX_DISTANCE` where no obstacle is there.
    ///
    /// Both corners of the box are in range.
    #[tactic(auto, unfolding(crate::specs::Tracks::nearest_gap_in))]
    pub fn nearest_gap(&self, ego: Box2, tick: u32) -> i64
        requires { IsBoxInRange ego }
        ensures value { result ≡ nearest_gap_in self.now ego tick }
        ensures all { ForObstacles self.now
            (λ obstacles. result ≡ nearest_gap obstacles ego tick) }
        ensures least { ForObstacles self.now
            (λ obstacles. IsLeast (all_gaps obstacles ego tick) result) }
        ensures low { pos 0 ≤ℤ result }
        ensures high { result ≤ℤ MAX_DISTANCE }
    {
        least_gap_at(self.tracks.as_slice(), self.present(tick), ego, tick)
    }

    /// How far ahead the next obstacle is at the tick, in 0.1 mm: at most `MAX_DISTANCE`, and
    /// `MAX_DISTANCE` where no obstacle is ahead.
    ///
    /// It is ahead where its position is in front of the given one along the heading, and at most
    /// the width to a side. The heading is in microradians, at most `MAX_ANGLE` in size, and the
    /// width in 0.1 mm.
    #[tactic(auto, unfolding(crate::specs::Tracks::headway_in))]
    pub fn headway(&self, position: Point, heading: i64, width: i64, tick: u32) -> i64
        requires { unsigned_abs heading ≤ MAX_ANGLE }
        ensures value { result ≡ headway_in self.now position heading width tick }
        ensures all { ForObstacles self.now
            (λ obstacles. result ≡ headway obstacles position heading width tick) }
        ensures least { ForObstacles self.now
            (λ obstacles. IsLeast (all_distances obstacles position heading width tick) result) }
        ensures low { pos 0 ≤ℤ result }
        ensures high { result ≤ℤ MAX_DISTANCE }
    {
        let unit = direction(heading);
        let tracks = self.tracks.as_slice();
        least_distance_at(tracks, self.present(tick), position, unit, width, tick)
    }
}
