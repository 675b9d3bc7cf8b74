ghost use Rattle.std.specs.Prelude.{◌≡◌, ◌≤ℤ◌, pos};
ghost use Rattle.std.specs.List.{fold};
ghost use Rattle.std.specs.Int.{int_min};
ghost use Rattle.fixed_geometry.specs.Boxes.{bounds as bounds_of, IsBoxInRange};
ghost use Rattle.fixed_geometry.specs.Polygon.{IsCornerList};
ghost use Rattle.moving_obstacles.specs.Nearness.{is_met, gaps};
ghost use Rattle.moving_obstacles.specs.Present.{IsPresent};
ghost use Rattle.moving_obstacles.specs.Tracks.{occupancy_in};

use crate::indexed_track::IndexedTrack;
use fixed_geometry::{Box2, Point, box_gap};
use scenario_model::Pose;

// An obstacle at a tick, with what tells that it is far away.
#[derive(Clone, Copy)]
pub(crate) struct Presence {
    // Its place among the tracks.
    pub(crate) place: usize,
    // A box that holds its shapes.
    pub(crate) bounds: Box2,
    pub(crate) pose: Pose,
}

impl Presence {
    // Whether the polygon, whose least box is given, meets one of the shapes.
    pub(crate) fn is_met(
        &self,
        tracks: &[IndexedTrack],
        ego: &[Point],
        ego_bounds: Box2,
        tick: u32,
    ) -> bool
        requires present { IsPresent tracks.now tick self.now }
        requires ego { IsCornerList ego.now }
        requires bounds { ego_bounds ≡ bounds_of ego.now }
        requires in_range { IsBoxInRange ego_bounds }
        ensures { result ≡ is_met ego.now (occupancy_in tracks.now self.now.place tick) }
    {
        if 0 < box_gap(ego_bounds, self.bounds) {
            return false;
        }
        is_met_at(tracks, self.place, ego, ego_bounds, tick)
    }

    // The least of `least` and the gaps to the shapes.
    pub(crate) fn least_gap(&self, tracks: &[IndexedTrack], ego: Box2, tick: u32, least: i64) -> i64
        requires present { IsPresent tracks.now tick self.now }
        requires ego { IsBoxInRange ego }
        requires least { pos 0 ≤ℤ least }
        ensures value { result ≡ fold int_min least
            (gaps ego (occupancy_in tracks.now self.now.place tick)) }
        ensures low { pos 0 ≤ℤ result }
    {
        if least <= box_gap(ego, self.bounds) {
            return least;
        }
        least_gap_at(tracks, self.place, ego, tick, least)
    }
}

// Whether the polygon meets a shape of the track at the place.
#[tactic(auto, unfolding(crate::specs::Nearness::is_met, crate::specs::Tracks::occupancy_in))]
fn is_met_at(
    tracks: &[IndexedTrack],
    place: usize,
    ego: &[Point],
    ego_bounds: Box2,
    tick: u32,
) -> bool
    requires ego { IsCornerList ego.now }
    requires bounds { ego_bounds ≡ bounds_of ego.now }
    requires in_range { IsBoxInRange ego_bounds }
    ensures { result ≡ is_met ego.now (occupancy_in tracks.now place tick) }
{
    match tracks.get(place) {
        Some(track) => track.is_met(ego, ego_bounds, tick),
        None => false,
    }
}

// The least of `least` and the gaps to the shapes of the track at the place.
#[tactic(auto, unfolding(crate::specs::Nearness::gaps, crate::specs::Tracks::occupancy_in))]
fn least_gap_at(tracks: &[IndexedTrack], place: usize, ego: Box2, tick: u32, least: i64) -> i64
    requires ego { IsBoxInRange ego }
    requires least { pos 0 ≤ℤ least }
    ensures value { result ≡ fold int_min least (gaps ego (occupancy_in tracks.now place tick)) }
    ensures low { pos 0 ≤ℤ result }
{
    match tracks.get(place) {
        Some(track) => track.least_gap(ego, tick, least),
        None => least,
    }
}
