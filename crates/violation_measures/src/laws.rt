ghost use Rattle.std.specs.Prelude.{◌≡◌, ◌≢◌, ◌<◌, ◌≤◌, [], ◌∷◌, ◌++◌, Bool as Truth, List, length};
ghost use Rattle.std.specs.Prelude.{replicate, All};
ghost use Rattle.std.specs.List.{AllPairs, Contains};
ghost use Rattle.preorder.specs.Violation.{IsWidth};
ghost use Rattle.rule_language.specs.declared.book.Rule.{Rule};
ghost use Rattle.rulebook_order.specs.Sums.{sums};
ghost use Rattle.violation_measures.specs.Binding.{IsBoundTo};
ghost use Rattle.violation_measures.specs.Formulas.{Find};
ghost use Rattle.violation_measures.specs.Measured.{rule_numbers, used_by};
ghost use Rattle.violation_measures.specs.Sources.{Features, AreAlike};
ghost use Rattle.violation_measures.specs.Vectors.{width, step_vector, end_vector, run};
ghost use Rattle.violation_measures.specs.Vectors.{trajectory_vector, IsUpTo};
ghost use Rattle.violation_measures.specs.declared.bound.Bound.{Bound};
ghost use Rattle.violation_measures.specs.declared.step.Step.{Step};

use crate::amount::MAX_AMOUNT;
use crate::used::MAX_MEASURED;

/// A source that finds what the one bound finds, and has its bounds, can be asked in its place. Its
/// values may differ.
pub fn bound_to_all_alike()
    ensures { (a b : Features) (bound : Bound) → AreAlike a b → IsBoundTo a bound
        → IsBoundTo b bound }
{}

/// A bound has 1 to 32 rules. What a step and what an end adds has a number for each, at most
/// `MAX_AMOUNT`.
pub fn vectors_are_small()
    ensures width { (f : Features) (bound : Bound) → IsBoundTo f bound → IsWidth (width bound) }
    ensures step { (f : Features) (bound : Bound) (step : Step) → IsBoundTo f bound
        → IsUpTo (width bound) MAX_AMOUNT (step_vector f bound step) }
    ensures end { (f : Features) (bound : Bound) (step : Step) → IsBoundTo f bound
        → IsUpTo (width bound) MAX_AMOUNT (end_vector f bound step) }
{}

/// The run of a longer list is the sum of runs, and a trajectory's vector is its run and what its
/// end adds.
pub fn runs_add_up()
    ensures none { (f : Features) (bound : Bound) → run f bound [] ≡ replicate (width bound) 0 }
    ensures one { (f : Features) (bound : Bound) (step : Step)
        → run f bound (step ∷ []) ≡ step_vector f bound step }
    ensures more { (f : Features) (bound : Bound) (steps more : List Step)
        → run f bound (steps ++ more) ≡ sums (run f bound steps) (run f bound more) }
    ensures empty { (f : Features) (bound : Bound)
        → trajectory_vector f bound [] ≡ replicate (width bound) 0 }
    ensures whole { (f : Features) (bound : Bound) (steps : List Step) (last : Step)
        → trajectory_vector f bound (steps ++ last ∷ [])
        ≡ sums (run f bound (steps ++ last ∷ [])) (end_vector f bound last) }
{}

/// What is measured once a step, or once at the end: features that the parts of the kind name, each
/// once, at most `MAX_MEASURED`, and all of them where these are fewer.
pub fn features_are_measured_once()
    ensures named { (find : Find) (at_end : Truth) (rules : List Rule)
        → All (Contains (rule_numbers find at_end rules)) (used_by find at_end rules) }
    ensures once { (find : Find) (at_end : Truth) (rules : List Rule)
        → AllPairs (λ m n. m ≢ n) (used_by find at_end rules) }
    ensures few { (find : Find) (at_end : Truth) (rules : List Rule)
        → length (used_by find at_end rules) ≤ MAX_MEASURED }
    ensures all { (find : Find) (at_end : Truth) (rules : List Rule)
        → length (used_by find at_end rules) < MAX_MEASURED
        → All (Contains (used_by find at_end rules)) (rule_numbers find at_end rules) }
{}
