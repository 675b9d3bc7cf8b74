ghost use Rattle.std.specs.Prelude.{◌≡◌, ◌<◌, ◌≤◌, ◌*◌, length, slice_index, unsigned_abs};
ghost use Rattle.std.specs.Prelude.{IfOk, IfErr, Some, None, count_by};
ghost use Rattle.std.specs.List.{position, list_any, list_all};
ghost use Rattle.fixed_geometry.specs.Plane.{IsInRange, IsWithin};
ghost use Rattle.scenario_model.specs.Scenario.{IsScenario, lanelet_ids};
ghost use Rattle.fixed_geometry.specs.declared.limits.TheConstants.{MAX_ANGLE, MICROS_PER_UNIT};
ghost use Rattle.fixed_geometry.specs.declared.limits.TheConstants.{MAX_PLANE_COORDINATE};
ghost use Rattle.scenario_model.specs.declared.limits.TheConstants.{MAX_LANELETS};
ghost use Rattle.lanelet_network.specs.Lanes.{lanes_of, lane_ids, has_id, is_against};
ghost use Rattle.lanelet_network.specs.Lanes.{IsUnknown, IsOfLanelet, holds as does_hold};
ghost use Rattle.lanelet_network.specs.Lanes.{holds_at as does_hold_at, count_at as count_of};
ghost use Rattle.lanelet_network.specs.Lanes.{direction_at as direction_of};
ghost use Rattle.lanelet_network.specs.Lanes.{opposes_if_holding as does_oppose_if_holding};
ghost use Rattle.lanelet_network.specs.Lanes.{opposes_at as does_oppose_at};
ghost use Rattle.lanelet_network.specs.Cells.{AreAsked};

use crate::fault::NetworkFault;
use crate::grid::Grid;
use crate::lane::Lane;
use fixed_geometry::{Point, direction};
use scenario_model::Scenario;
use std::alloc::Global;
use std::marker::Model;

/// The lanelets of a scenario, in document order.
///
/// Lengths are in 0.1 mm. The points that it is asked about are in range: their coordinates are at
/// most `MAX_PLANE_COORDINATE` in size.
#[derive(Drop)]
pub struct Network {
    lanes: Vec<Lane>,
    grid: Grid,
}

impl Model for Network {
    ghost use Rattle.std.specs.Prelude.{◌≤◌, List, length};
    ghost use Rattle.scenario_model.specs.declared.limits.TheConstants.{MAX_LANELETS};
    ghost use Rattle.lanelet_network.specs.Lanes.{Lane as Shown, HaveOwnIds};
    ghost use Rattle.lanelet_network.specs.Cells.{IsGridOf};

    ghost Value = { List Shown };

    ghost view = { λ n. n.lanes.items };

    ghost invariant = { λ n. (length n.lanes.items ≤ MAX_LANELETS)
        × HaveOwnIds n.lanes.items
        × IsGridOf n.lanes.items n.grid };
}

impl Network {
    /// The network of a scenario that is well formed. It fails for want of memory alone.
    pub fn new(alloc: Global, scenario: &Scenario) -> Result<Network, NetworkFault>
        requires { IsScenario scenario.now }
        ensures ok { IfOk result (λ network. network ≡ lanes_of scenario.now) }
        ensures ids { IfOk result (λ network. lane_ids network ≡ lanelet_ids scenario.now) }
        ensures fault { IfErr result (λ fault. fault ≡ NetworkFault.NoMemory) }
    {
        let mut lanes = Vec::new(alloc);
        for lanelet in scenario.lanelets.as_slice() {
            lanes.push(Lane::new(alloc, lanelet)?)?;
        }
        let grid = Grid::new(alloc, lanes.as_slice())?;
        Ok(Network { lanes, grid })
    }

    /// The number of lanelets, at most `MAX_LANELETS`.
    pub fn count(&self) -> usize
        ensures value { result ≡ length self.now }
        ensures few { result ≤ MAX_LANELETS }
    {
        self.lanes.len()
    }

    // The place of the first lanelet with the id.
    fn position(&self, id: u64) -> Option<usize>
        ensures value { result ≡ position (has_id id) self.now }
        ensures few { length self.now ≤ MAX_LANELETS }
    {
        self.lanes.iter().position(|lane| lane.id() == id)
    }

    // The place of the lanelet with the id, or that there is none.
    fn place(&self, id: u64) -> Result<usize, NetworkFault>
        ensures within { IfOk result (λ place. place < length self.now) }
        ensures id { IfOk result (λ place. slice_index (lane_ids self.now) place ≡ id) }
        ensures first { IfOk result (λ place. position (has_id id) self.now ≡ Some place) }
        ensures few { length self.now ≤ MAX_LANELETS }
        ensures unknown_id { IfErr result (IsUnknown self.now id) }
        ensures nowhere { IfErr result (λ _. position (has_id id) self.now ≡ None) }
    {
        match self.position(id) {
            Some(place) => Ok(place),
            None => Err(NetworkFault::UnknownLanelet),
        }
    }

    // The lanelet with the id.
    fn lane(&self, id: u64) -> Result<&Lane, NetworkFault>
        ensures value { IfOk result (λ lane. IsOfLanelet self.now id (λ other. other ≡ lane.now)) }
        ensures unknown_id { IfErr result (IsUnknown self.now id) }
    {
        let place = self.place(id)?;
        Ok(&self.lanes[place])
    }

    /// Whether the closed polygon of the lanelet with the id holds the point.
    ///
    /// It fails with `UnknownLanelet` where no lanelet has the id.
    pub fn holds(&self, id: u64, point: Point) -> Result<bool, NetworkFault>
        requires { IsInRange point }
        ensures value { IfOk result (λ answer.
            IsOfLanelet self.now id (λ lane. answer ≡ does_hold point lane)) }
        ensures unknown_id { IfErr result (IsUnknown self.now id) }
    {
        Ok(self.lane(id)?.holds(point))
    }

    /// The direction of the lanelet with the id at the point, in 0.1 mm: how its left bound leads
    /// at its first point at the least distance.
    ///
    /// It is the way from that point to the next, and for the last point the way from the one
    /// before it. It fails with `UnknownLanelet` where no lanelet has the id.
    pub fn direction_at(&self, id: u64, point: Point) -> Result<Point, NetworkFault>
        requires { IsInRange point }
        ensures value { IfOk result (λ way.
            IsOfLanelet self.now id (λ lane. way ≡ direction_of lane point)) }
        ensures size { IfOk result (IsWithin (2 * MAX_PLANE_COORDINATE)) }
        ensures unknown_id { IfErr result (IsUnknown self.now id) }
    {
        Ok(self.lane(id)?.direction_at(point))
    }

    /// The ids of the known lanelets that follow the one with the id, in document order.
    ///
    /// It fails with `UnknownLanelet` where no lanelet has the id.
    pub fn successors(&self, id: u64) -> Result<&[u64], NetworkFault>
        ensures value { IfOk result (λ ids.
            IsOfLanelet self.now id (λ lane. ids.now ≡ lane.successors)) }
        ensures unknown_id { IfErr result (IsUnknown self.now id) }
    {
        Ok(self.lane(id)?.successors())
    }

    /// The place of the lanelet with the id in document order, counted from 0.
    ///
    /// It fails with `UnknownLanelet` where no lanelet has the id.
    pub fn index_of(&self, id: u64) -> Result<u32, NetworkFault>
        ensures within { IfOk result (λ index. index < length self.now) }
        ensures below { IfOk result (λ index. index < MAX_LANELETS) }
        ensures value { IfOk result (λ index. slice_index (lane_ids self.now) index ≡ id) }
        ensures first { IfOk result (λ index. position (has_id id) self.now ≡ Some index) }
        ensures unknown_id { IfErr result (IsUnknown self.now id) }
        ensures nowhere { IfErr result (λ _. position (has_id id) self.now ≡ None) }
    {
        let place = self.place(id)?;
        Ok(place as u32)
    }

    /// The id of the lanelet at the index, which is below the number of lanelets.
    pub fn id_at(&self, index: u32) -> u64
        requires { index < length self.now }
        ensures value { result ≡ slice_index (lane_ids self.now) index }
    {
        let lane = &self.lanes[index as usize];
        lane.id()
    }

    /// Whether there is a lanelet at the index, and its closed polygon holds the point.
    #[tactic(auto, unfolding(crate::specs::Lanes::holds_at))]
    pub fn holds_at(&self, index: u32, point: Point) -> bool
        requires { IsInRange point }
        ensures value { result ≡ does_hold_at self.now index point }
    {
        match self.lanes.get(index as usize) {
            Some(lane) => lane.holds(point),
            None => false,
        }
    }

    // The places of the lanelets that may hold the point: no other does.
    fn asked(&self, point: Point) -> &[u32]
        ensures places { AreAsked self.now point result.now }
        ensures few { length self.now ≤ MAX_LANELETS }
    {
        self.grid.places_at(point)
    }

    // Whether a lanelet at one of the places holds the point.
    fn is_held_at_any(&self, places: &[u32], point: Point) -> bool
        requires { IsInRange point }
        ensures { result ≡ list_any (λ place. does_hold_at self.now place point) places.now }
    {
        places.iter().any(|place| self.holds_at(*place, point))
    }

    /// Whether some lanelet holds the point.
    pub fn is_held(&self, point: Point) -> bool
        requires { IsInRange point }
        ensures value { result ≡ list_any (does_hold point) self.now }
    {
        self.is_held_at_any(self.asked(point), point)
    }

    // Whether the lanelet at the place, if it holds the point, leads more back than ahead there.
    #[tactic(auto, unfolding(crate::specs::Lanes::opposes_at))]
    fn opposes_at(&self, place: u32, point: Point, ahead: Point) -> bool
        requires point { IsInRange point }
        requires ahead { IsWithin MICROS_PER_UNIT ahead }
        ensures { result ≡ does_oppose_at self.now point ahead place }
    {
        match self.lanes.get(place as usize) {
            Some(lane) => lane.opposes_if_holding(point, ahead),
            None => true,
        }
    }

    // Whether each lanelet at the places that holds the point leads more back than ahead there.
    fn oppose_at_all(&self, places: &[u32], point: Point, ahead: Point) -> bool
        requires point { IsInRange point }
        requires ahead { IsWithin MICROS_PER_UNIT ahead }
        ensures { result ≡ list_all (λ place. does_oppose_at self.now point ahead place)
            places.now }
    {
        places
            .iter()
            .all(|place| self.opposes_at(*place, point, ahead))
    }

    // Whether each lanelet that holds the point leads more back than ahead there.
    fn all_oppose(&self, point: Point, ahead: Point) -> bool
        requires point { IsInRange point }
        requires ahead { IsWithin MICROS_PER_UNIT ahead }
        ensures { result ≡ list_all (does_oppose_if_holding point ahead) self.now }
    {
        self.oppose_at_all(self.asked(point), point, ahead)
    }

    // At how many of the places a lanelet holds the point.
    fn count_at_places(&self, places: &[u32], point: Point) -> usize
        requires { IsInRange point }
        ensures { result ≡ count_by (λ place. does_hold_at self.now place point) places.now }
    {
        let mut count = 0;
        for place in places {
            if self.holds_at(*place, point) {
                count += 1;
            }
        }
        count
    }

    // How many lanelets hold the point.
    fn held_count(&self, point: Point) -> usize
        requires { IsInRange point }
        ensures value { result ≡ count_of self.now point }
        ensures few { result ≤ MAX_LANELETS }
    {
        self.count_at_places(self.asked(point), point)
    }

    /// How many lanelets hold the point, at most `MAX_LANELETS`.
    pub fn count_at(&self, point: Point) -> u32
        requires { IsInRange point }
        ensures value { result ≡ count_of self.now point }
        ensures few { result ≤ MAX_LANELETS }
    {
        self.held_count(point) as u32
    }

    /// Whether some lanelet holds the point, and in each that does the way ahead has a negative dot
    /// product with the lanelet's direction.
    ///
    /// The heading is in microradians, at most `MAX_ANGLE` in size.
    #[tactic(auto, unfolding(crate::specs::Lanes::is_against))]
    pub fn against(&self, point: Point, heading: i64) -> bool
        requires point { IsInRange point }
        requires heading { unsigned_abs heading ≤ MAX_ANGLE }
        ensures value { result ≡ is_against self.now point heading }
    {
        self.is_held(point) && self.all_oppose(point, direction(heading))
    }
}
