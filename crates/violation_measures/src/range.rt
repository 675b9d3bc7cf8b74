ghost use Rattle.std.specs.Prelude.{◌≡◌, ◌≤◌, ◌^◌, pos, ◌<ℤ◌, ◌+ℤ◌, ◌-ℤ◌, ◌*ℤ◌, neg_ℤ, int_div};
ghost use Rattle.std.specs.Prelude.{unsigned_abs, IfSome};
ghost use Rattle.std.specs.Int.{int_min, int_max};
ghost use Rattle.violation_measures.specs.Checked.{IsSmall};
ghost use Rattle.violation_measures.specs.Intervals.{from_to, absolute, product};
ghost use Rattle.violation_measures.specs.Ranges.{IsKept, kept as kept_of, on_one, on_two, negated};
ghost use Rattle.violation_measures.specs.Ranges.{summed, differing, lesser, greater, hull, choice};
ghost use Rattle.violation_measures.specs.Ranges.{quotient as quotient_of, ranged};
ghost use Rattle.violation_measures.specs.Sources.{bounds_of};

use crate::source::FeatureSource;
use crate::value::MAX_VALUE;
use preorder::Name;
use rule_language::{Argument, Expr};
use scenario_model::Span;

// The interval where neither end passes 10^18 in size.
fn kept(low: i128, high: i128) -> Option<Span>
    ensures value { result ≡ kept_of (from_to low high) }
    ensures small { IfSome result IsKept }
{
    if low.unsigned_abs() <= MAX_VALUE && high.unsigned_abs() <= MAX_VALUE {
        Some(Span {
            low: low as i64,
            high: high as i64,
        })
    } else {
        None
    }
}

// The bounds of a feature; those of an unknown one are 0.
fn feature_bounds<S: FeatureSource>(
    source: &S,
    name: &Name,
    argument: &Option<Argument>,
) -> Option<Span>
    ensures value { result ≡ kept_of (bounds_of (S.features source.now) name.now argument.now) }
    ensures small { IfSome result IsKept }
{
    match source.find(name, argument.as_ref()) {
        Some(feature) => {
            let bounds = source.bounds(feature);
            kept(i128::from(bounds.low), i128::from(bounds.high))
        }
        None => kept(0, 0),
    }
}

fn negated(a: Option<Span>) -> Option<Span>
    requires { IfSome a IsKept }
    ensures value { result ≡ on_one negated a }
    ensures small { IfSome result IsKept }
{
    let a = a?;
    kept(opposite(a.high), opposite(a.low))
}

fn absolute(a: Option<Span>) -> Option<Span>
    requires { IfSome a IsKept }
    ensures value { result ≡ on_one absolute a }
    ensures small { IfSome result IsKept }
{
    let a = a?;
    if a.low >= 0 {
        kept(i128::from(a.low), i128::from(a.high))
    } else if a.high <= 0 {
        kept(opposite(a.high), opposite(a.low))
    } else {
        kept(0, opposite(a.low).max(i128::from(a.high)))
    }
}

fn summed(a: Option<Span>, b: Option<Span>) -> Option<Span>
    requires a { IfSome a IsKept }
    requires b { IfSome b IsKept }
    ensures value { result ≡ on_two summed a b }
    ensures small { IfSome result IsKept }
{
    let (a, b) = (a?, b?);
    kept(plus(a.low, b.low), plus(a.high, b.high))
}

fn differing(a: Option<Span>, b: Option<Span>) -> Option<Span>
    requires a { IfSome a IsKept }
    requires b { IfSome b IsKept }
    ensures value { result ≡ on_two differing a b }
    ensures small { IfSome result IsKept }
{
    let (a, b) = (a?, b?);
    kept(minus(a.low, b.high), minus(a.high, b.low))
}

fn opposite(a: i64) -> i128
    requires { IsSmall a }
    ensures value { result ≡ neg_ℤ a }
{
    -i128::from(a)
}

fn plus(a: i64, b: i64) -> i128
    requires a { IsSmall a }
    requires b { IsSmall b }
    ensures value { result ≡ a +ℤ b }
{
    i128::from(a) + i128::from(b)
}

fn minus(a: i64, b: i64) -> i128
    requires a { IsSmall a }
    requires b { IsSmall b }
    ensures value { result ≡ a -ℤ b }
{
    i128::from(a) - i128::from(b)
}

fn quotient(a: i64, divisor: i64) -> i128
    requires divisor { pos 0 <ℤ divisor }
    requires small { IsSmall a }
    ensures value { result ≡ int_div a divisor }
{
    i128::from(a / divisor)
}

fn least_of(a: i128, b: i128, c: i128, d: i128) -> i128
    ensures { result ≡ int_min (int_min a b) (int_min c d) }
{
    a.min(b).min(c.min(d))
}

fn greatest_of(a: i128, b: i128, c: i128, d: i128) -> i128
    ensures { result ≡ int_max (int_max a b) (int_max c d) }
{
    a.max(b).max(c.max(d))
}

fn times(a: i64, b: i64) -> i128
    requires a { IsSmall a }
    requires b { IsSmall b }
    ensures value { result ≡ a *ℤ b }
    ensures size { unsigned_abs result ≤ 10 ^ 36 }
{
    i128::from(a) * i128::from(b)
}

fn product(a: Span, b: Span) -> Option<Span>
    requires a { IsKept a }
    requires b { IsKept b }
    ensures value { result ≡ kept_of (product a b) }
    ensures small { IfSome result IsKept }
{
    let ll = times(a.low, b.low);
    let lh = times(a.low, b.high);
    let hl = times(a.high, b.low);
    let hh = times(a.high, b.high);
    kept(least_of(ll, lh, hl, hh), greatest_of(ll, lh, hl, hh))
}

fn multiplied(a: Option<Span>, b: Option<Span>) -> Option<Span>
    requires a { IfSome a IsKept }
    requires b { IfSome b IsKept }
    ensures value { result ≡ on_two product a b }
    ensures small { IfSome result IsKept }
{
    product(a?, b?)
}

fn lesser(a: Option<Span>, b: Option<Span>) -> Option<Span>
    ensures value { result ≡ on_two lesser a b }
    ensures small { IfSome result IsKept }
{
    let (a, b) = (a?, b?);
    kept(i128::from(a.low.min(b.low)), i128::from(a.high.min(b.high)))
}

fn greater(a: Option<Span>, b: Option<Span>) -> Option<Span>
    ensures value { result ≡ on_two greater a b }
    ensures small { IfSome result IsKept }
{
    let (a, b) = (a?, b?);
    kept(i128::from(a.low.max(b.low)), i128::from(a.high.max(b.high)))
}

fn hull(a: Option<Span>, b: Option<Span>) -> Option<Span>
    ensures value { result ≡ on_two hull a b }
    ensures small { IfSome result IsKept }
{
    let (a, b) = (a?, b?);
    kept(i128::from(a.low.min(b.low)), i128::from(a.high.max(b.high)))
}

fn chosen(a: Option<Span>, b: Option<Span>, c: Option<Span>) -> Option<Span>
    ensures value { result ≡ choice a b c }
    ensures small { IfSome result IsKept }
{
    match a {
        Some(_) => hull(b, c),
        None => None,
    }
}

fn divided(a: Option<Span>, divisor: i64) -> Option<Span>
    requires { IfSome a IsKept }
    ensures value { result ≡ quotient_of a divisor }
    ensures small { IfSome result IsKept }
{
    if divisor < 1 {
        return None;
    }
    let a = a?;
    kept(quotient(a.low, divisor), quotient(a.high, divisor))
}

/// The interval of the expression, where no interval on the way passes 10^18 in size.
pub fn range_of<S: FeatureSource>(source: &S, expr: &Expr) -> Option<Span>
    ensures value { result ≡ ranged (bounds_of (S.features source.now)) expr.now }
    ensures small { IfSome result IsKept }
{
    match expr {
        Expr::Const(value) => kept(i128::from(*value), i128::from(*value)),
        Expr::Feature(name, argument) => feature_bounds(source, name, argument),
        Expr::Neg(a) => negated(range_of(source, a.get())),
        Expr::Abs(a) => absolute(range_of(source, a.get())),
        Expr::Add(a, b) => summed(range_of(source, a.get()), range_of(source, b.get())),
        Expr::Sub(a, b) => differing(range_of(source, a.get()), range_of(source, b.get())),
        Expr::Mul(a, b) => multiplied(range_of(source, a.get()), range_of(source, b.get())),
        Expr::Min(a, b) => lesser(range_of(source, a.get()), range_of(source, b.get())),
        Expr::Max(a, b) => greater(range_of(source, a.get()), range_of(source, b.get())),
        Expr::If(a, b, c) => chosen(
            range_of(source, a.get()),
            range_of(source, b.get()),
            range_of(source, c.get()),
        ),
        Expr::Div(a, divisor) => divided(range_of(source, a.get()), *divisor),
    }
}
