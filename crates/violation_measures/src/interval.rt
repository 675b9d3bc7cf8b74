ghost use Rattle.std.specs.Prelude.{◌≡◌, IsTrue, List, ℕ, Option};
ghost use Rattle.expressions.specs.Written.{is_well_formed};
ghost use Rattle.expressions.specs.declared.tree.Argument.{Argument as About};
ghost use Rattle.expressions.specs.declared.tree.Expr.{Expr as Tree};
ghost use Rattle.violation_measures.specs.Values.{Valuation, value};
ghost use Rattle.violation_measures.specs.Intervals.{Bounds, IsIn, interval, all_known};

use crate::source::FeatureSource;
use rule_language::Expr;

/// Whether the source knows every feature that the expression names.
pub fn are_known<S: FeatureSource>(source: &S, expr: &Expr) -> bool
    ensures { result ≡ all_known (S.features source.now).find expr.now }
{
    match expr {
        Expr::Const(_) => true,
        Expr::Feature(name, argument) => source.find(name, argument.as_ref()).is_some(),
        Expr::Neg(a) | Expr::Abs(a) | Expr::Div(a, _) => are_known(source, a.get()),
        Expr::Add(a, b) | Expr::Sub(a, b) | Expr::Mul(a, b) | Expr::Min(a, b) | Expr::Max(a, b) => {
            are_known(source, a.get()) && are_known(source, b.get())
        }
        Expr::If(a, b, c) => {
            are_known(source, a.get()) && (are_known(source, b.get()) && are_known(source, c.get()))
        }
    }
}

/// Where each feature's value lies in its bounds, the value of an expression that a book may hold
/// lies in its interval.
pub fn value_lies_in_interval()
    ensures { (feature : Valuation) (bounds : Bounds)
        → ((name : List ℕ) (argument : Option About) → IsIn (bounds name argument)
        (feature name argument))
        → (e : Tree) → IsTrue (is_well_formed e) → IsIn (interval bounds e) (value feature e) }
{}
