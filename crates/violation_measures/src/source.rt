ghost use Rattle.std.specs.Prelude.{◌≡◌, ◌≤◌, length, All};
ghost use Rattle.std.specs.Option.{option_copied};
ghost use Rattle.violation_measures.specs.Measured.{IsMeasured};
ghost use Rattle.violation_measures.specs.Sources.{Features, IsKnown, AreSound};
ghost use Rattle.violation_measures.specs.Steps.{IsStep};

use crate::step::Step;
use crate::used::MAX_MEASURED;
use preorder::Name;
use rule_language::Argument;
use scenario_model::Span;

/// How far the bounds of a feature may be from 0.
pub const MAX_BOUND: i64 = 1_000_000_000_000;

/// Where features come from. Each has a number, bounds, and a value at each step, which lies in the
/// bounds. No call takes memory.
pub trait FeatureSource {
    /// What the calls answer.
    ghost features: { Self → Features };

    /// The number of a feature. None exactly where the source has none of that name and argument.
    fn find(&self, name: &Name, argument: Option<&Argument>) -> Option<u32>
        ensures { result ≡ (features self.now).find name.now (option_copied argument.entry) };

    /// The least and the greatest value of the feature of a number that `find` gives, at most
    /// `MAX_BOUND` in size.
    fn bounds(&self, feature: u32) -> Span
        requires { IsKnown (features self.now) feature }
        ensures { result ≡ (features self.now).bounds feature };

    /// The value at a step of the feature of a number that `find` gives. The step is in its ranges.
    fn value(&self, feature: u32, step: &Step) -> i64
        requires known { IsKnown (features self.now) feature }
        requires step { IsStep step.now }
        ensures { result ≡ (features self.now).value feature step.now };

    /// The values at a step of the features of the numbers used, in their order: of each what
    /// `value` answers. They are numbers that `find` gives, at most `MAX_MEASURED`. A source with
    /// features that have something in common may find it once for all of them.
    fn measure(&self, step: &Step, used: &[u32]) -> [i64; MAX_MEASURED]
        requires step { IsStep step.now }
        requires known { All (IsKnown (features self.now)) used.now }
        requires few { length used.now ≤ MAX_MEASURED }
        ensures { IsMeasured (features self.now) step.now used.now result }
    {
        let mut values = [0; MAX_MEASURED];
        for place in 0..used.len() {
            values[place] = self.value(used[place], step);
        }
        values
    }

    /// Bounds are in order and at most `MAX_BOUND` in size, and values lie in them.
    ghost sound: { (source : Self) → AreSound (features source) };
}
