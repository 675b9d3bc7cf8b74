ghost use Rattle.std.specs.Prelude.{◌≡◌, ◌<◌, ◌≤◌, ◌*◌, length, All, IfSome};
ghost use Rattle.signal_features.specs.Lights.{cycle, is_red_at, place_at, is_red, green_in};
ghost use Rattle.signal_features.specs.Lights.{wait_from};
ghost use Rattle.signal_features.specs.Sound.{IsPhase, IsLight};
ghost use Rattle.violation_measures.specs.declared.step.TheConstants.{MAX_TICK};

use crate::limits::{MAX_PHASE_TICKS, MAX_PHASES, MAX_WAIT};
use crate::signals::{Light, Phase};

// How long the phases last together.
fn cycle(phases: &[Phase]) -> u32
    requires few { length phases.now ≤ MAX_PHASES }
    requires some { 1 ≤ length phases.now }
    requires phases { All IsPhase phases.now }
    ensures value { result ≡ cycle phases.now }
    ensures some { 1 ≤ result }
    ensures small { result ≤ MAX_PHASES * MAX_PHASE_TICKS }
{
    let mut ticks = 0;
    for phase in phases {
        ticks += phase.ticks;
    }
    ticks
}

// Whether the phase is red that holds the place.
#[tactic(auto, unfolding(crate::specs::Lights::is_red_at))]
fn is_red_at(phases: &[Phase], place: u32) -> bool
    ensures { result ≡ is_red_at phases.now place }
{
    let mut place = place;
    for phase in phases {
        if place < phase.ticks {
            return phase.red;
        }
        place -= phase.ticks;
    }
    false
}

// How long it takes from the place to one that is not red, if there is one.
#[tactic(auto, unfolding(crate::specs::Lights::wait_from))]
fn wait_from(phases: &[Phase], place: u32) -> Option<u32>
    requires few { length phases.now ≤ MAX_PHASES }
    requires phases { All IsPhase phases.now }
    ensures value { result ≡ wait_from phases.now place }
    ensures small { IfSome result (λ ticks. ticks ≤ MAX_PHASES * MAX_PHASE_TICKS) }
{
    let mut place = place;
    let mut waited = 0;
    for phase in phases {
        if place >= phase.ticks {
            place -= phase.ticks;
        } else if phase.red {
            waited += phase.ticks - place;
            place = 0;
        } else {
            return Some(waited);
        }
    }
    None
}

impl Light {
    // The place of its cycle that the light is at.
    #[tactic(auto, unfolding(crate::specs::Lights::place_at))]
    fn place_at(&self, tick: u32) -> u32
        requires light { IsLight self.now }
        requires tick { tick ≤ MAX_TICK }
        ensures value { result ≡ place_at self.now tick }
        ensures within { result < cycle self.now.phases }
    {
        let since = i64::from(tick) - i64::from(self.offset);
        let cycle = i64::from(cycle(self.phases.as_slice()));
        since.rem_euclid(cycle) as u32
    }

    /// Whether the light is red at the tick, which is one of a step. The light is well formed.
    #[tactic(auto, unfolding(crate::specs::Lights::is_red))]
    pub fn is_red(&self, tick: u32) -> bool
        requires light { IsLight self.now }
        requires tick { tick ≤ MAX_TICK }
        ensures { result ≡ is_red self.now tick }
    {
        is_red_at(self.phases.as_slice(), self.place_at(tick))
    }

    /// After how many ticks from this one on the light is not red, 0 where it isn't now, and
    /// `MAX_WAIT` where it is red at all ticks. The tick is one of a step; the light is well formed.
    pub fn green_in(&self, tick: u32) -> u32
        requires light { IsLight self.now }
        requires tick { tick ≤ MAX_TICK }
        ensures { result ≡ green_in self.now tick }
    {
        let phases = self.phases.as_slice();
        let place = self.place_at(tick);
        if let Some(ticks) = wait_from(phases, place) {
            return ticks;
        }
        match wait_from(phases, 0) {
            Some(ticks) => cycle(phases) - place + ticks,
            None => MAX_WAIT,
        }
    }
}
