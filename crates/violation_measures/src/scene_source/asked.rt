ghost use Rattle.std.specs.Prelude.{◌≡◌, ◌≤◌, not, count_by, IfSome};
ghost use Rattle.std.specs.List.{list_any, position};
ghost use Rattle.std.specs.Option.{option_copied};
ghost use Rattle.std.specs.Str.{bytes_eq};
ghost use Rattle.fixed_geometry.specs.Polygon.{IsCornerList};
ghost use Rattle.fixed_geometry.specs.Plane.{IsInRange};
ghost use Rattle.violation_measures.specs.Steps.{IsStep};
ghost use Rattle.violation_measures.specs.Sources.{IsKnown};
ghost use Rattle.lanelet_network.specs.Lanes.{holds};
ghost use Rattle.violation_measures.specs.Scenes.{center, ego, one_if, is_driven, in_lanelet};
ghost use Rattle.violation_measures.specs.Scenes.{maneuver, number, numbered, bounds_in};
ghost use Rattle.violation_measures.specs.Scenes.{feature_named, value_in, features_of};
ghost use Rattle.violation_measures.specs.SceneSources.{scene_of};
ghost use Rattle.violation_measures.specs.SceneLaws.{scene_sound};

use super::SceneSource;
use crate::feature::Feature;
use crate::source::FeatureSource;
use crate::step::Step;
use crate::used::MAX_MEASURED;
use fixed_geometry::{Point, bounds, rectangle_at};
use lanelet_network::Network;
use preorder::Name;
use rule_language::Argument;
use scenario_model::Span;

fn center(step: &Step) -> Point
    requires { IsStep step.now }
    ensures value { result ≡ center step.now }
    ensures in_range { IsInRange result }
{
    Point {
        x: step.x,
        y: step.y,
    }
}

fn one_if(test: bool) -> i64
    ensures { result ≡ one_if test }
{
    if test { 1 } else { 0 }
}

fn is_driven(driven: Option<u32>, place: u32) -> bool
    ensures { result ≡ is_driven driven place }
{
    match driven {
        Some(driven) => driven == place,
        None => false,
    }
}

// How many of the corners no lanelet holds.
fn off_road(network: &Network, corners: &[Point]) -> usize
    requires { IsCornerList corners.now }
    ensures value { result ≡ count_by (λ corner. not
        (list_any (holds corner) network.now)) corners.now }
    ensures few { result ≤ 4096 }
{
    let mut count = 0;
    for corner in corners {
        if !network.is_held(*corner) {
            count += 1;
        }
    }
    count
}

fn is_name(name: &Name, text: &[u8]) -> bool
    ensures { result ≡ bytes_eq name.now text.now }
{
    name.as_slice() == text
}

impl SceneSource<'_> {
    #[tactic(auto, unfolding(crate::specs::Scenes::ego))]
    fn ego(&self, step: &Step) -> [Point; 4]
        requires { IsStep step.now }
        ensures value { result ≡ ego (scene_of self.now) step.now }
        ensures corners { IsCornerList result }
    {
        rectangle_at(center(step), step.heading, self.ego_length, self.ego_width)
    }

    #[tactic(auto, unfolding(crate::specs::Scenes::in_lanelet))]
    fn in_lanelet(&self, name: &Name, id: u64) -> Option<Feature>
        ensures { result ≡ in_lanelet (scene_of self.now).lanes name.now id }
    {
        if !is_name(name, b"in_lanelet") {
            return None;
        }
        match self.network.index_of(id) {
            Ok(place) => Some(Feature::InLanelet(place)),
            Err(_) => None,
        }
    }

    // The place of the maneuver of the name.
    fn place(&self, name: &Name) -> Option<usize>
        ensures { result ≡ position (λ other. bytes_eq other name.now)
            (scene_of self.now).maneuvers }
    {
        self.maneuvers
            .iter()
            .position(|other| is_name(other, name.as_slice()))
    }

    #[tactic(auto, unfolding(crate::specs::Scenes::maneuver))]
    fn maneuver(&self, name: &Name, about: &Name) -> Option<Feature>
        ensures { result ≡ maneuver (scene_of self.now).maneuvers name.now about.now }
    {
        if !is_name(name, b"maneuver") {
            return None;
        }
        match self.place(about) {
            Some(place) => Some(Feature::Maneuver(place as u32)),
            None => None,
        }
    }

    fn feature_named(&self, name: &Name, argument: Option<&Argument>) -> Option<Feature>
        ensures { result ≡ feature_named (scene_of self.now) name.now
            (option_copied argument.entry) }
    {
        match argument {
            None => Feature::plain(name.as_slice()),
            Some(Argument::Number(id)) => self.in_lanelet(name, *id),
            Some(Argument::Named(about)) => self.maneuver(name, about),
        }
    }

    fn value_of(&self, feature: Feature, step: &Step) -> i64
        requires { IsStep step.now }
        ensures { result ≡ value_in (scene_of self.now) feature step.now }
    {
        match feature {
            Feature::Overlaps => i64::from(self.traffic.meeting(&self.ego(step), step.tick)),
            Feature::OffRoad => off_road(self.network, &self.ego(step)) as i64,
            Feature::Lanes => i64::from(self.network.count_at(center(step))),
            Feature::WrongWay => one_if(self.network.against(center(step), step.heading)),
            Feature::Speed => step.speed,
            Feature::Accel => step.accel,
            Feature::Turn => step.turn,
            Feature::Tick => i64::from(step.tick),
            Feature::Gap => self.traffic.nearest_gap(bounds(&self.ego(step)), step.tick),
            Feature::Headway => {
                self.traffic
                    .headway(center(step), step.heading, self.ego_width, step.tick)
            }
            Feature::InLanelet(place) => one_if(self.network.holds_at(place, center(step))),
            Feature::Maneuver(place) => one_if(is_driven(step.maneuver, place)),
        }
    }
}

// Whether the feature of the number is one of the ego polygon.
fn is_about_ego(number: u32) -> bool {
    matches!(
        Feature::numbered(number),
        Feature::Overlaps | Feature::OffRoad | Feature::Gap
    )
}

impl SceneSource<'_> {
    // The ego polygon, where one of the features is about it.
    fn asked_ego(&self, step: &Step, used: &[u32]) -> Option<[Point; 4]>
        requires { IsStep step.now }
        ensures value { IfSome result (λ corners. corners ≡ ego (scene_of self.now) step.now) }
        ensures corners { IfSome result IsCornerList }
    {
        if used.iter().any(|number| is_about_ego(*number)) {
            Some(self.ego(step))
        } else {
            None
        }
    }

    // The value at the step, by the ego polygon where it is at hand.
    fn value_around(&self, feature: Feature, step: &Step, around: &Option<[Point; 4]>) -> i64
        requires step { IsStep step.now }
        requires value { IfSome around.now (λ corners. corners
            ≡ ego (scene_of self.now) step.now) }
        requires corners { IfSome around.now IsCornerList }
        ensures { result ≡ value_in (scene_of self.now) feature step.now }
    {
        let Some(corners) = around else {
            return self.value_of(feature, step);
        };
        match feature {
            Feature::Overlaps => i64::from(self.traffic.meeting(corners, step.tick)),
            Feature::OffRoad => off_road(self.network, corners) as i64,
            Feature::Gap => self.traffic.nearest_gap(bounds(corners), step.tick),
            _ => self.value_of(feature, step),
        }
    }

    // The value at the step of the feature of the number, in the same way.
    fn measured(&self, number: u32, step: &Step, around: &Option<[Point; 4]>) -> i64
        requires step { IsStep step.now }
        requires value { IfSome around.now (λ corners. corners
            ≡ ego (scene_of self.now) step.now) }
        requires corners { IfSome around.now IsCornerList }
        ensures { result ≡ value_in (scene_of self.now) (numbered number) step.now }
    {
        self.value_around(Feature::numbered(number), step, around)
    }
}

impl FeatureSource for SceneSource<'_> {
    ghost features = { λ source. features_of (scene_of source) };

    fn find(&self, name: &Name, argument: Option<&Argument>) -> Option<u32> {
        match self.feature_named(name, argument) {
            Some(feature) => Some(feature.number()),
            None => None,
        }
    }

    fn bounds(&self, feature: u32) -> Span {
        Feature::numbered(feature).bounds()
    }

    fn value(&self, feature: u32, step: &Step) -> i64 {
        self.value_of(Feature::numbered(feature), step)
    }

    // The ego polygon is made once for all features.
    fn measure(&self, step: &Step, used: &[u32]) -> [i64; MAX_MEASURED] {
        let around = self.asked_ego(step, used);
        let mut values = [0; MAX_MEASURED];
        for place in 0..used.len() {
            values[place] = self.measured(used[place], step, &around);
        }
        values
    }

    ghost sound = { scene_sound };
}
