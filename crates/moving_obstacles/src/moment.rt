ghost use Rattle.std.specs.Prelude.{◌≡◌, ◌≤ℤ◌, pos, All, IfOk, count_by};
ghost use Rattle.std.specs.List.{flat_map};
ghost use Rattle.fixed_geometry.specs.Plane.{IsWithin};
ghost use Rattle.fixed_geometry.specs.Boxes.{bounds as bounds_of, IsBoxInRange};
ghost use Rattle.fixed_geometry.specs.Polygon.{IsCornerList};
ghost use Rattle.fixed_geometry.specs.declared.limits.TheConstants.{MICROS_PER_UNIT};
ghost use Rattle.moving_obstacles.specs.Nearness.{is_met, gaps, distances, least};
ghost use Rattle.moving_obstacles.specs.Present.{IsPresent, ArePresent, AreMoments};
ghost use Rattle.moving_obstacles.specs.Tracks.{occupancy_in};

use crate::ahead;
use crate::indexed_track::IndexedTrack;
use crate::limits::{MAX_DISTANCE, MAX_MOMENTS, MIN_MOMENTS};
use crate::presence::Presence;
use fixed_geometry::{Box2, Point};
use preorder::{List, NoMemory};
use std::alloc::Global;
use std::marker::Model;

// What is present at a tick, in the order of the tracks.
#[derive(Drop)]
pub(crate) struct Moment {
    present: List<Presence>,
}

impl Model for Moment {
    ghost use Rattle.std.specs.Prelude.{List as Items};
    ghost use Rattle.moving_obstacles.specs.declared.presence.Presence.{Presence as Present};

    ghost Value = { Items Present };

    ghost view = { λ moment. moment.present };
}

impl Moment {
    // What is present at the tick.
    fn at(alloc: Global, tracks: &[IndexedTrack], tick: u32) -> Result<Moment, NoMemory>
        ensures { IfOk result (ArePresent tracks.now tick) }
    {
        let mut present = List::new(alloc);
        for place in 0..tracks.len() {
            if let Some(placement) = tracks[place].placement_at(tick) {
                present.push(placement.presence(place))?;
            }
        }
        Ok(Moment { present })
    }

    pub(crate) fn present(&self) -> &[Presence]
        ensures { result.now ≡ self.now }
    {
        self.present.as_slice()
    }
}

// How many of the first ticks have a list of what is present. A later tick has the same answers,
// found among all tracks.
fn count_of_moments(tracks: &[IndexedTrack]) -> u32 {
    let mut last = 0;
    for track in tracks {
        last = track.last_tick().max(last);
    }
    last.clamp(MIN_MOMENTS - 1, MAX_MOMENTS - 1) + 1
}

// What is present at each of the first ticks.
pub(crate) fn moments_of(alloc: Global, tracks: &[IndexedTrack]) -> Result<List<Moment>, NoMemory>
    ensures { IfOk result (AreMoments tracks.now) }
{
    let mut moments = List::new(alloc);
    for tick in 0..count_of_moments(tracks) {
        moments.push(Moment::at(alloc, tracks, tick)?)?;
    }
    Ok(moments)
}

// How many of those that are present meet the polygon.
pub(crate) fn count_met(
    tracks: &[IndexedTrack],
    present: &[Presence],
    ego: &[Point],
    ego_bounds: Box2,
    tick: u32,
) -> usize
    requires present { All (IsPresent tracks.now tick) present.now }
    requires ego { IsCornerList ego.now }
    requires bounds { ego_bounds ≡ bounds_of ego.now }
    requires in_range { IsBoxInRange ego_bounds }
    ensures value { result ≡ count_by
        (λ p. is_met ego.now (occupancy_in tracks.now p.place tick)) present.now }
{
    let mut count = 0;
    for presence in present {
        if presence.is_met(tracks, ego, ego_bounds, tick) {
            count += 1;
        }
    }
    count
}

// The least gap to one of those that are present.
#[tactic(auto, unfolding(crate::specs::Nearness::least))]
pub(crate) fn least_gap(tracks: &[IndexedTrack], present: &[Presence], ego: Box2, tick: u32) -> i64
    requires present { All (IsPresent tracks.now tick) present.now }
    requires ego { IsBoxInRange ego }
    ensures value { result
        ≡ least (flat_map (λ p. gaps ego (occupancy_in tracks.now p.place tick)) present.now) }
    ensures low { pos 0 ≤ℤ result }
    ensures high { result ≤ℤ MAX_DISTANCE }
{
    let mut nearest = MAX_DISTANCE;
    for presence in present {
        nearest = presence.least_gap(tracks, ego, tick, nearest);
    }
    nearest
}

// The least distance to one of those that are present and ahead.
#[tactic(auto, unfolding(crate::specs::Nearness::least))]
pub(crate) fn least_distance(present: &[Presence], position: Point, unit: Point, width: i64) -> i64
    requires { IsWithin MICROS_PER_UNIT unit }
    ensures value { result
        ≡ least (flat_map (λ p. distances position unit width (Some p.pose)) present.now) }
    ensures low { pos 0 ≤ℤ result }
    ensures high { result ≤ℤ MAX_DISTANCE }
{
    let mut nearest = MAX_DISTANCE;
    for presence in present {
        nearest = ahead::least_distance(position, unit, width, Some(presence.pose), nearest);
    }
    nearest
}
