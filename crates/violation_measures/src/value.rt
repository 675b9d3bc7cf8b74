ghost use Rattle.std.specs.Prelude.{◌≡◌, ℤ, pos, ◌+ℤ◌, ◌-ℤ◌, ◌*ℤ◌, neg_ℤ, unsigned_abs, IfSome};
ghost use Rattle.std.specs.Prelude.{IsTrue, List, ℕ, Option};
ghost use Rattle.expressions.specs.Written.{is_well_formed};
ghost use Rattle.expressions.specs.declared.tree.Argument.{Argument};
ghost use Rattle.expressions.specs.declared.tree.Expr.{Expr};
ghost use Rattle.violation_measures.specs.Values.{Valuation, value};
ghost use Rattle.violation_measures.specs.Intervals.{Bounds, IsIn, all_keep};
ghost use Rattle.std.specs.Int.{int_min, int_max};
ghost use Rattle.violation_measures.specs.Sources.{at_step};
ghost use Rattle.violation_measures.specs.Steps.{IsStep};
ghost use Rattle.violation_measures.specs.Checked.{cut, of_one, of_two, chosen, divided};
ghost use Rattle.violation_measures.specs.Checked.{checked_value, IsSmall};
ghost use Rattle.violation_measures.specs.Formulas.{on_number, on_numbers, formula_value};
ghost use Rattle.violation_measures.specs.Measured.{measured_at};

use crate::formula::{Binary, Formula, Unary};
use crate::measure::measured_at;
use crate::source::FeatureSource;
use crate::step::Step;
use preorder::Name;
use rule_language::Argument;

/// The most in size that an end of an interval may be, and so any value on the way to that of a part
/// of a bound book.
pub const MAX_VALUE: u128 = 1_000_000_000_000_000_000;

// The number where it is small.
pub(crate) fn cut(value: i128) -> Option<i128>
    ensures exact { result ≡ cut value }
    ensures small { IfSome result IsSmall }
{
    if value.unsigned_abs() <= MAX_VALUE {
        Some(value)
    } else {
        None
    }
}

// The value of a feature, where it is small; that of an unknown feature is 0.
fn feature_value<S: FeatureSource>(
    source: &S,
    step: &Step,
    name: &Name,
    argument: &Option<Argument>,
) -> Option<i128>
    requires { IsStep step.now }
    ensures exact { result ≡ cut (at_step (S.features source.now) step.now name.now argument.now) }
    ensures small { IfSome result IsSmall }
{
    match source.find(name, argument.as_ref()) {
        Some(feature) => cut(i128::from(source.value(feature, step))),
        None => cut(0),
    }
}

fn negated(a: Option<i128>) -> Option<i128>
    requires { IfSome a IsSmall }
    ensures exact { result ≡ of_one neg_ℤ a }
    ensures small { IfSome result IsSmall }
{
    cut(-a?)
}

fn absolute(a: Option<i128>) -> Option<i128>
    requires { IfSome a IsSmall }
    ensures exact { result ≡ of_one (λ a. pos (unsigned_abs a)) a }
    ensures small { IfSome result IsSmall }
{
    cut(a?.abs())
}

fn added(a: Option<i128>, b: Option<i128>) -> Option<i128>
    requires a { IfSome a IsSmall }
    requires b { IfSome b IsSmall }
    ensures exact { result ≡ of_two (λ a b. a +ℤ b) a b }
    ensures small { IfSome result IsSmall }
{
    cut(a? + b?)
}

fn taken(a: Option<i128>, b: Option<i128>) -> Option<i128>
    requires a { IfSome a IsSmall }
    requires b { IfSome b IsSmall }
    ensures exact { result ≡ of_two (λ a b. a -ℤ b) a b }
    ensures small { IfSome result IsSmall }
{
    cut(a? - b?)
}

#[tactic(auto, using(crate::proofs::Sizes::product_fits))]
fn multiplied(a: Option<i128>, b: Option<i128>) -> Option<i128>
    requires a { IfSome a IsSmall }
    requires b { IfSome b IsSmall }
    ensures exact { result ≡ of_two (λ a b. a *ℤ b) a b }
    ensures small { IfSome result IsSmall }
{
    cut(a? * b?)
}

fn least(a: Option<i128>, b: Option<i128>) -> Option<i128>
    requires a { IfSome a IsSmall }
    requires b { IfSome b IsSmall }
    ensures exact { result ≡ of_two int_min a b }
    ensures small { IfSome result IsSmall }
{
    cut(a?.min(b?))
}

fn greatest(a: Option<i128>, b: Option<i128>) -> Option<i128>
    requires a { IfSome a IsSmall }
    requires b { IfSome b IsSmall }
    ensures exact { result ≡ of_two int_max a b }
    ensures small { IfSome result IsSmall }
{
    cut(a?.max(b?))
}

pub(crate) fn chosen(a: Option<i128>, b: Option<i128>, c: Option<i128>) -> Option<i128>
    ensures exact { result ≡ chosen a b c }
    ensures small { IfSome result IsSmall }
{
    let (a, b, c) = (a?, b?, c?);
    if a > 0 { cut(b) } else { cut(c) }
}

pub(crate) fn divided(a: Option<i128>, divisor: i64) -> Option<i128>
    requires { IfSome a IsSmall }
    ensures exact { result ≡ divided a divisor }
    ensures small { IfSome result IsSmall }
{
    let a = a?;
    if divisor < 1 {
        return None;
    }
    cut(a / i128::from(divisor))
}

pub(crate) fn applied(operation: Unary, a: Option<i128>) -> Option<i128>
    requires { IfSome a IsSmall }
    ensures exact { result ≡ of_one (on_number operation) a }
    ensures small { IfSome result IsSmall }
{
    match operation {
        Unary::Neg => negated(a),
        Unary::Abs => absolute(a),
    }
}

pub(crate) fn combined(operation: Binary, a: Option<i128>, b: Option<i128>) -> Option<i128>
    requires a { IfSome a IsSmall }
    requires b { IfSome b IsSmall }
    ensures exact { result ≡ of_two (on_numbers operation) a b }
    ensures small { IfSome result IsSmall }
{
    match operation {
        Binary::Add => added(a, b),
        Binary::Sub => taken(a, b),
        Binary::Mul => multiplied(a, b),
        Binary::Min => least(a, b),
        Binary::Max => greatest(a, b),
    }
}

/// The value at a step, by the values that are measured there, where no value on the way passes
/// 10^18 in size.
pub fn value_of<S: FeatureSource>(
    source: &S,
    step: &Step,
    values: &[i64],
    formula: &Formula,
) -> Option<i128>
    requires { IsStep step.now }
    ensures exact { result ≡ formula_value (measured_at values.now)
        (at_step (S.features source.now) step.now) formula.now }
    ensures small { IfSome result IsSmall }
{
    match formula {
        Formula::Const(value) => cut(i128::from(*value)),
        Formula::Measured(place) => cut(i128::from(measured_at(values, *place))),
        Formula::Asked(name, argument) => feature_value(source, step, name, argument),
        Formula::One(operation, a) => applied(*operation, value_of(source, step, values, a.get())),
        Formula::Two(operation, a, b) => combined(
            *operation,
            value_of(source, step, values, a.get()),
            value_of(source, step, values, b.get()),
        ),
        Formula::If(a, b, c) => chosen(
            value_of(source, step, values, a.get()),
            value_of(source, step, values, b.get()),
            value_of(source, step, values, c.get()),
        ),
        Formula::Div(a, divisor) => divided(value_of(source, step, values, a.get()), *divisor),
    }
}

/// Where the interval of no subexpression passes 10^18, the value that is computed is the value in
/// whole numbers.
pub fn values_are_exact()
    ensures { (feature : Valuation) (bounds : Bounds)
        → ((name : List ℕ) (argument : Option Argument)
        → IsIn (bounds name argument) (feature name argument))
        → (e : Expr) → IsTrue (is_well_formed e) → IsTrue (all_keep bounds e)
        → checked_value feature e ≡ Some (value feature e) }
{}
