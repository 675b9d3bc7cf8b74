ghost use Rattle.std.specs.Prelude.{◌≡◌, ◌≤◌, ◌*◌, ◌^◌, All, length, if◌then◌else◌};
ghost use Rattle.violation_measures.specs.Amounts.{part_value};
ghost use Rattle.violation_measures.specs.Formulas.{formula_value};
ghost use Rattle.violation_measures.specs.Measured.{measured_at};
ghost use Rattle.violation_measures.specs.Resolved.{counted, amount, step_amount, end_amount};
ghost use Rattle.violation_measures.specs.Sources.{at_step};
ghost use Rattle.violation_measures.specs.Steps.{IsStep};

use crate::bound::BoundPart;
use crate::source::FeatureSource;
use crate::step::Step;
use crate::value::value_of;
use rule_language::{MAX_PARTS, MAX_WEIGHT};

/// The most that a part counts at a step.
pub const MAX_PART_VALUE: u64 = 1_000_000_000;

/// The most that a part adds at a step, or at the end: `MAX_WEIGHT` times `MAX_PART_VALUE`.
pub const MAX_PART_AMOUNT: u64 = 1_000_000_000_000_000;

/// The most that a step, or the end, adds to a number of a vector: `MAX_PARTS` such parts.
pub const MAX_AMOUNT: u64 = 8_000_000_000_000_000;

fn cut_to_range(value: i128) -> u64
    ensures exact { result ≡ part_value value }
    ensures small { result ≤ MAX_PART_VALUE }
{
    if value < 0 {
        0
    } else {
        value.min(i128::from(MAX_PART_VALUE)) as u64
    }
}

// What a part counts at a step. No value of a part that is bound is too large to be there.
fn counted<S: FeatureSource>(source: &S, step: &Step, values: &[i64], part: &BoundPart) -> u64
    requires { IsStep step.now }
    ensures exact { result ≡ counted (formula_value (measured_at values.now)
        (at_step (S.features source.now) step.now) part.now.formula) }
    ensures small { result ≤ MAX_PART_VALUE }
{
    match value_of(source, step, values, &part.formula) {
        Some(value) => cut_to_range(value),
        None => 0,
    }
}

#[tactic(auto, using(crate::proofs::Sizes::weighted_fits))]
fn scaled(weight: u64, value: u64) -> u64
    requires weight { weight ≤ MAX_WEIGHT }
    requires value { value ≤ MAX_PART_VALUE }
    ensures exact { result ≡ weight * value }
    ensures small { result ≤ MAX_PART_AMOUNT }
{
    weight * value
}

// What a part adds at a step: its weight times its value, and nothing where it is final.
fn part_amount<S: FeatureSource>(source: &S, step: &Step, values: &[i64], part: &BoundPart) -> u64
    requires step { IsStep step.now }
    requires weight { part.now.weight ≤ MAX_WEIGHT }
    ensures exact { result ≡ (if part.now.at_end then 0
        else amount (measured_at values.now) (at_step (S.features source.now) step.now) part.now) }
    ensures small { result ≤ MAX_PART_AMOUNT }
{
    if part.at_end {
        return 0;
    }
    scaled(part.weight, counted(source, step, values, part))
}

// What a part adds at the end: its weight times its value where it is final, and nothing else.
fn final_amount<S: FeatureSource>(source: &S, step: &Step, values: &[i64], part: &BoundPart) -> u64
    requires step { IsStep step.now }
    requires weight { part.now.weight ≤ MAX_WEIGHT }
    ensures exact { result ≡ (if part.now.at_end then amount (measured_at values.now)
        (at_step (S.features source.now) step.now) part.now else 0) }
    ensures small { result ≤ MAX_PART_AMOUNT }
{
    if !part.at_end {
        return 0;
    }
    scaled(part.weight, counted(source, step, values, part))
}

/// What the parts of a rule add at a step, over those that are not final.
pub fn rule_value<S: FeatureSource>(
    source: &S,
    step: &Step,
    values: &[i64],
    parts: &[BoundPart],
) -> u64
    requires step { IsStep step.now }
    requires few { length parts.now ≤ MAX_PARTS }
    requires weights { All (λ part. part.weight ≤ MAX_WEIGHT) parts.now }
    ensures exact { result ≡ step_amount (measured_at values.now)
        (at_step (S.features source.now) step.now) parts.now }
    ensures small { result ≤ MAX_AMOUNT }
{
    let mut sum = 0;
    for part in parts {
        sum += part_amount(source, step, values, part);
    }
    sum
}

/// What the parts of a rule add at the end, over its final parts. The step is the last, finished.
pub fn end_value<S: FeatureSource>(
    source: &S,
    step: &Step,
    values: &[i64],
    parts: &[BoundPart],
) -> u64
    requires step { IsStep step.now }
    requires few { length parts.now ≤ MAX_PARTS }
    requires weights { All (λ part. part.weight ≤ MAX_WEIGHT) parts.now }
    ensures exact { result ≡ end_amount (measured_at values.now)
        (at_step (S.features source.now) step.now) parts.now }
    ensures small { result ≤ MAX_AMOUNT }
{
    let mut sum = 0;
    for part in parts {
        sum += final_amount(source, step, values, part);
    }
    sum
}
