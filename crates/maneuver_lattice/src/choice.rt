ghost use Rattle.std.specs.Prelude.{◌≡◌, ◌<◌, ◌≤◌, length, count_by, filter, slice_index};
ghost use Rattle.std.specs.List.{position};
ghost use Rattle.maneuver_lattice.specs.Scenes.{is_named, is_open, places_from};

use crate::lattice::Maneuver;
use crate::state::LatticeState;

// Whether the maneuver begins in the state's class, and ends by the horizon.
#[tactic(auto, unfolding(crate::specs::Scenes::is_open), using(crate::proofs::Reached::ends_in_time))]
fn is_open(horizon: u32, state: &LatticeState, maneuver: &Maneuver) -> bool
    requires { state.now.tick ≤ horizon }
    ensures { result ≡ is_open horizon state.now maneuver.now }
{
    let ticks = (horizon - state.tick) as usize;
    maneuver.from == state.class && maneuver.steps.as_slice().len() <= ticks
}

/// How many maneuvers can be chosen in the state.
pub fn count_open(maneuvers: &[Maneuver], horizon: u32, state: &LatticeState) -> usize
    requires { state.now.tick ≤ horizon }
    ensures { result ≡ count_by (is_open horizon state.now) maneuvers.now }
{
    maneuvers
        .iter()
        .filter(|maneuver| is_open(horizon, state, maneuver))
        .count()
}

/// The place of the maneuver that a choice chooses.
pub fn open_at(maneuvers: &[Maneuver], horizon: u32, state: &LatticeState, choice: usize) -> usize
    requires tick { state.now.tick ≤ horizon }
    requires choice { choice < length (places_from (is_open horizon state.now) 0 maneuvers.now) }
    ensures { result ≡ slice_index
        (places_from (is_open horizon state.now) 0 maneuvers.now) choice }
{
    let mut left = choice;
    for i in 0..maneuvers.len() {
        if is_open(horizon, state, &maneuvers[i]) {
            if left == 0 {
                return i;
            }
            left -= 1;
        }
    }
    unreachable!()
}

fn is_named(maneuver: &Maneuver, name: &[u8]) -> bool
    ensures { result ≡ is_named name.now maneuver.now }
{
    maneuver.name.as_slice() == name
}

/// The choice of the maneuver of this name, among those that can be chosen in the state.
pub fn open_named(
    maneuvers: &[Maneuver],
    horizon: u32,
    state: &LatticeState,
    name: &[u8],
) -> Option<usize>
    requires { state.now.tick ≤ horizon }
    ensures { result ≡ position (is_named name.now)
        (filter (is_open horizon state.now) maneuvers.now) }
{
    maneuvers
        .iter()
        .filter(|maneuver| is_open(horizon, state, maneuver))
        .position(|maneuver| is_named(maneuver, name))
}
