ghost use Rattle.std.specs.Prelude.{◌≡◌, ◌≤◌, length, nat_lt};
ghost use Rattle.std.specs.List.{list_all};
ghost use Rattle.signal_features.specs.Measuring.{scene_number, AreAsked};
ghost use Rattle.signal_features.specs.declared.feature.TheConstants.{FIRST_NUMBER};
ghost use Rattle.violation_measures.specs.declared.used.TheConstants.{MAX_MEASURED};

use crate::feature::FIRST_NUMBER;
use violation_measures::{Feature, MAX_MEASURED};

// Whether all these numbers are of features of the scene.
pub fn are_of_scene(numbers: &[u32]) -> bool
    ensures { result ≡ list_all (λ n. nat_lt n FIRST_NUMBER) numbers.now }
{
    numbers.iter().all(|number| *number < FIRST_NUMBER)
}

// The number, or that of the scene's tick in place of one of signals.
#[tactic(auto, unfolding(crate::specs::Measuring::scene_number))]
fn scene_number(number: u32) -> u32
    ensures { result ≡ scene_number number }
{
    if number < FIRST_NUMBER {
        number
    } else {
        Feature::Tick.number()
    }
}

// What the scene's source is asked in place of these numbers.
pub fn scene_numbers(used: &[u32]) -> [u32; MAX_MEASURED]
    requires { length used.now ≤ MAX_MEASURED }
    ensures asked { AreAsked used.now result }
{
    let mut asked = [0; MAX_MEASURED];
    for place in 0..used.len() {
        asked[place] = scene_number(used[place]);
    }
    asked
}
