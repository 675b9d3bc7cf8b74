ghost use Rattle.std.specs.Prelude.{◌≡◌, ◌≤◌, [], All};
ghost use Rattle.std.specs.Int.{int_min};
ghost use Rattle.std.specs.List.{fold, cons_option};
ghost use Rattle.violation_measures.specs.declared.step.TheConstants.{MAX_TICK};
ghost use Rattle.signal_features.specs.Features.{limit_with, place_with, is_red_there};
ghost use Rattle.signal_features.specs.Features.{green_in_there, is_red_with, limit_in, has_red};
ghost use Rattle.signal_features.specs.Sound.{IsLight};

use crate::signals::{Light, SignalUse, Signals, SpeedSign};
use scenario_model::MAX_SPEED;

// The limit of the sign with the id.
#[tactic(auto, unfolding(crate::specs::Features::limit_with))]
fn limit_with(signs: &[SpeedSign], id: u64) -> Option<i64>
    ensures { result ≡ limit_with signs.now id }
{
    match signs.iter().find(|sign| sign.id == id) {
        Some(sign) => Some(sign.limit),
        None => None,
    }
}

// The place of the light with the id.
pub fn place_with(lights: &[Light], id: u64) -> Option<usize>
    ensures { result ≡ place_with lights.now id }
{
    lights.iter().position(|light| light.id == id)
}

// Whether the light at the place is red at the tick.
#[tactic(auto, unfolding(crate::specs::Features::is_red_there))]
pub fn is_red_there(lights: &[Light], tick: u32, place: usize) -> bool
    requires lights { All IsLight lights.now }
    requires tick { tick ≤ MAX_TICK }
    ensures { result ≡ is_red_there lights.now tick place }
{
    match lights.get(place) {
        Some(light) => light.is_red(tick),
        None => false,
    }
}

// After how many ticks the light at the place is not red.
#[tactic(auto, unfolding(crate::specs::Features::green_in_there))]
pub fn green_in_there(lights: &[Light], tick: u32, place: usize) -> u32
    requires lights { All IsLight lights.now }
    requires tick { tick ≤ MAX_TICK }
    ensures { result ≡ green_in_there lights.now tick place }
{
    match lights.get(place) {
        Some(light) => light.green_in(tick),
        None => 0,
    }
}

// Whether the light with the id is red at the tick.
#[tactic(auto, unfolding(crate::specs::Features::is_red_with))]
fn is_red_with(lights: &[Light], tick: u32, id: u64) -> bool
    requires lights { All IsLight lights.now }
    requires tick { tick ≤ MAX_TICK }
    ensures { result ≡ is_red_with lights.now tick id }
{
    match place_with(lights, id) {
        Some(place) => is_red_there(lights, tick, place),
        None => false,
    }
}

// Whether a lanelet refers to a light that is red at the tick.
#[tactic(auto, unfolding(crate::specs::Features::has_red))]
pub fn has_red(signals: &Signals, tick: u32, used: &SignalUse) -> bool
    requires lights { All IsLight signals.now.lights }
    requires tick { tick ≤ MAX_TICK }
    ensures { result ≡ has_red signals.now tick used.now }
{
    let lights = signals.lights.as_slice();
    used.lights
        .as_slice()
        .iter()
        .any(|id| is_red_with(lights, tick, *id))
}

// The lesser of the limits, where there is another.
fn lesser(least: i64, limit: Option<i64>) -> i64
    ensures { result ≡ fold int_min least (cons_option limit []) }
{
    match limit {
        Some(limit) => least.min(limit),
        None => least,
    }
}

// The least limit of the signs that a lanelet refers to.
#[tactic(auto, unfolding(crate::specs::Features::limit_in), using(crate::proofs::LimitLaws::least_more))]
pub fn limit_in(signals: &Signals, used: &SignalUse) -> i64
    ensures { result ≡ limit_in signals.now used.now }
{
    let mut least = MAX_SPEED as i64;
    for id in used.signs.as_slice() {
        least = lesser(least, limit_with(signals.signs.as_slice(), *id));
    }
    least
}
