ghost use Rattle.std.specs.Prelude.{◌≡◌, ◌≤◌, ◌<◌, pos, length, nat_lt, if◌then◌else◌};
ghost use Rattle.std.specs.Option.{option_copied};
ghost use Rattle.std.specs.Str.{bytes_eq};
ghost use Rattle.fixed_geometry.specs.Plane.{IsInRange};
ghost use Rattle.lanelet_network.specs.Lanes.{holds_at};
ghost use Rattle.scenario_model.specs.declared.limits.TheConstants.{MAX_LANELETS, MAX_SPEED};
ghost use Rattle.violation_measures.specs.Scenes.{center, one_if};
ghost use Rattle.violation_measures.specs.SceneSources.{scene_of};
ghost use Rattle.violation_measures.specs.Steps.{IsStep};
ghost use Rattle.violation_measures.specs.declared.step.TheConstants.{MAX_TICK};
ghost use Rattle.signal_features.specs.Features.{limit_at, is_red_place, speed_limit, red, use_of};
ghost use Rattle.signal_features.specs.Features.{of_light, signal_named, signal_value};
ghost use Rattle.signal_features.specs.Features.{signal_numbered, features_of};
ghost use Rattle.signal_features.specs.declared.feature.TheConstants.{FIRST_NUMBER};
ghost use Rattle.signal_features.specs.SourceLaws.{signals_sound};
ghost use Rattle.signal_features.specs.Sources.{signalled_of};

use super::SignalSource;
use crate::feature::{FIRST_NUMBER, SignalFeature};
use crate::lookup::{green_in_there, has_red, is_red_there, limit_in, place_with};
use crate::measuring::{are_of_scene, scene_numbers};
use crate::signals::SignalUse;
use fixed_geometry::Point;
use preorder::Name;
use rule_language::Argument;
use scenario_model::{MAX_SPEED, Span};
use violation_measures::{FeatureSource, MAX_MEASURED, Step};

fn is_name(name: &Name, text: &[u8]) -> bool
    ensures { result ≡ bytes_eq name.now text.now }
{
    name.as_slice() == text
}

fn center(step: &Step) -> Point
    requires { IsStep step.now }
    ensures value { result ≡ center step.now }
    ensures in_range { IsInRange result }
{
    Point {
        x: step.x,
        y: step.y,
    }
}

fn one_if(test: bool) -> i64
    ensures { result ≡ one_if test }
{
    if test { 1 } else { 0 }
}

impl SignalSource<'_> {
    // What the lanelet at the place refers to.
    fn use_of(&self, place: usize) -> &SignalUse
        requires { place < length self.now.signals.now.uses }
        ensures { result.now ≡ use_of self.now.signals.now place }
    {
        &self.signals.uses.as_slice()[place]
    }

    // The least limit of the signs of the lanelet at the place, if it holds the point.
    #[tactic(auto, using(crate::proofs::LimitLaws::no_signs, crate::proofs::LimitLaws::limit_elsewhere, crate::proofs::LimitLaws::limit_here))]
    fn limit_at(&self, place: usize, point: Point) -> i64
        requires point { IsInRange point }
        requires place { place < length self.now.signals.now.uses }
        ensures { result ≡ limit_at self.now.network.now self.now.signals.now point place }
    {
        let used = self.use_of(place);
        if used.signs.as_slice().is_empty() {
            return MAX_SPEED as i64;
        }
        if !self.network.holds_at(place as u32, point) {
            return MAX_SPEED as i64;
        }
        limit_in(self.signals, used)
    }

    // Whether the lanelet at the place holds the point and has a light that is red at the tick.
    #[tactic(auto, using(crate::proofs::LimitLaws::no_lights, crate::proofs::LimitLaws::red_elsewhere, crate::proofs::LimitLaws::red_here))]
    fn is_red_at(&self, place: usize, point: Point, tick: u32) -> bool
        requires point { IsInRange point }
        requires tick { tick ≤ MAX_TICK }
        requires place { place < length self.now.signals.now.uses }
        ensures { result ≡ is_red_place self.now.network.now self.now.signals.now point tick place }
    {
        let used = self.use_of(place);
        if used.lights.as_slice().is_empty() {
            return false;
        }
        if !self.network.holds_at(place as u32, point) {
            return false;
        }
        has_red(self.signals, tick, used)
    }

    // 1 where that is so, else 0.
    fn red_at(&self, place: usize, point: Point, tick: u32) -> usize
        requires point { IsInRange point }
        requires tick { tick ≤ MAX_TICK }
        requires place { place < length self.now.signals.now.uses }
        ensures value { result ≡ (if is_red_place self.now.network.now self.now.signals.now point
            tick place then 1 else 0) }
        ensures few { result ≤ 1 }
    {
        if self.is_red_at(place, point, tick) {
            1
        } else {
            0
        }
    }

    #[tactic(auto, using(crate::proofs::LimitLaws::least_of_more))]
    fn speed_limit(&self, point: Point) -> i64
        requires point { IsInRange point }
        ensures { result ≡ speed_limit self.now.network.now self.now.signals.now point }
    {
        let mut least = MAX_SPEED as i64;
        for place in 0..self.signals.uses.as_slice().len() {
            least = least.min(self.limit_at(place, point));
        }
        least
    }

    #[tactic(auto, using(crate::proofs::LimitLaws::count_more))]
    fn red(&self, point: Point, tick: u32) -> usize
        requires point { IsInRange point }
        requires tick { tick ≤ MAX_TICK }
        ensures value { result ≡ red self.now.network.now self.now.signals.now point tick }
        ensures few { result ≤ MAX_LANELETS }
    {
        let mut count: usize = 0;
        for place in 0..self.signals.uses.as_slice().len() {
            count += self.red_at(place, point, tick);
        }
        count
    }

    #[tactic(auto, unfolding(crate::specs::Features::of_light))]
    fn of_light(&self, name: &Name, id: u64) -> Option<SignalFeature>
        ensures { result ≡ of_light self.now.signals.now.lights name.now id }
    {
        if is_name(name, b"light") {
            match place_with(self.signals.lights.as_slice(), id) {
                Some(place) => Some(SignalFeature::Light(place as u32)),
                None => None,
            }
        } else if is_name(name, b"green_in") {
            match place_with(self.signals.lights.as_slice(), id) {
                Some(place) => Some(SignalFeature::GreenIn(place as u32)),
                None => None,
            }
        } else {
            None
        }
    }

    fn signal_named(&self, name: &Name, argument: Option<&Argument>) -> Option<SignalFeature>
        ensures { result ≡ signal_named self.now.signals.now name.now
            (option_copied argument.entry) }
    {
        match argument {
            None => SignalFeature::plain(name.as_slice()),
            Some(Argument::Number(id)) => self.of_light(name, *id),
            Some(Argument::Named(_)) => None,
        }
    }

    fn signal_value(&self, feature: SignalFeature, step: &Step) -> i64
        requires { IsStep step.now }
        ensures { result ≡ signal_value self.now.network.now self.now.signals.now feature
            step.now }
    {
        let lights = self.signals.lights.as_slice();
        match feature {
            SignalFeature::SpeedLimit => self.speed_limit(center(step)),
            SignalFeature::Red => self.red(center(step), step.tick) as i64,
            SignalFeature::Light(place) => one_if(is_red_there(lights, step.tick, place as usize)),
            SignalFeature::GreenIn(place) => {
                i64::from(green_in_there(lights, step.tick, place as usize))
            }
        }
    }
}

impl SignalSource<'_> {
    // The value at the step of the feature of a number, which is as measured where it is the
    // scene's.
    fn value_by(&self, number: u32, step: &Step, measured: i64) -> i64
        requires { IsStep step.now }
        ensures { result ≡ (if nat_lt number FIRST_NUMBER then measured
            else signal_value self.now.network.now self.now.signals.now (signal_numbered number)
            step.now) }
    {
        if number < FIRST_NUMBER {
            measured
        } else {
            self.signal_value(SignalFeature::numbered(number), step)
        }
    }
}

impl FeatureSource for SignalSource<'_> {
    ghost features = { λ source. features_of (signalled_of source) };

    fn find(&self, name: &Name, argument: Option<&Argument>) -> Option<u32> {
        match self.signal_named(name, argument) {
            Some(feature) => Some(feature.number()),
            None => self.scene.find(name, argument),
        }
    }

    fn bounds(&self, feature: u32) -> Span {
        if feature < FIRST_NUMBER {
            self.scene.bounds(feature)
        } else {
            SignalFeature::numbered(feature).bounds()
        }
    }

    fn value(&self, feature: u32, step: &Step) -> i64 {
        if feature < FIRST_NUMBER {
            self.scene.value(feature, step)
        } else {
            self.signal_value(SignalFeature::numbered(feature), step)
        }
    }

    // What is asked of the scene, its source measures at once.
    fn measure(&self, step: &Step, used: &[u32]) -> [i64; MAX_MEASURED] {
        if are_of_scene(used) {
            return self.scene.measure(step, used);
        }
        let asked = scene_numbers(used);
        let measured = self.scene.measure(step, &asked[..used.len()]);
        let mut values = [0; MAX_MEASURED];
        for place in 0..used.len() {
            values[place] = self.value_by(used[place], step, measured[place]);
        }
        values
    }

    ghost sound = { signals_sound };
}
