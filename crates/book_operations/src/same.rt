ghost use Rattle.std.specs.Prelude.{◌≡◌, ◌*◌, ◌==◌, ◌↔◌, IsTrue};
ghost use Rattle.std.specs.Str.{bytes_eq};
ghost use Rattle.book_operations.specs.Same.{same_tree, same_argument, same_arguments, is_times};
ghost use Rattle.book_operations.specs.Same.{are_times, same_rule, has_equal};

use expressions::{Argument, Expr};
use preorder::Name;
use rule_language::{Part, Rule};

fn same_name(a: &Name, b: &Name) -> bool
    ensures { result ≡ bytes_eq a.now b.now }
{
    a.as_slice() == b.as_slice()
}

fn same_argument(a: &Argument, b: &Argument) -> bool
    ensures { result ≡ same_argument a.now b.now }
{
    match (a, b) {
        (Argument::Named(a), Argument::Named(b)) => same_name(a, b),
        (Argument::Number(a), Argument::Number(b)) => *a == *b,
        _ => false,
    }
}

fn same_arguments(a: &Option<Argument>, b: &Option<Argument>) -> bool
    ensures { result ≡ same_arguments a.now b.now }
{
    match (a, b) {
        (None, None) => true,
        (Some(a), Some(b)) => same_argument(a, b),
        _ => false,
    }
}

// Whether two trees are the same.
fn same_expr(a: &Expr, b: &Expr) -> bool
    ensures { result ≡ same_tree a.now b.now }
{
    match (a, b) {
        (Expr::Const(a), Expr::Const(b)) => *a == *b,
        (Expr::Feature(a, c), Expr::Feature(b, d)) => same_name(a, b) && same_arguments(c, d),
        (Expr::Neg(a), Expr::Neg(b)) => same_expr(a.get(), b.get()),
        (Expr::Abs(a), Expr::Abs(b)) => same_expr(a.get(), b.get()),
        (Expr::Add(a, c), Expr::Add(b, d)) => same_expr(a.get(), b.get())
            && same_expr(c.get(), d.get()),
        (Expr::Sub(a, c), Expr::Sub(b, d)) => same_expr(a.get(), b.get())
            && same_expr(c.get(), d.get()),
        (Expr::Mul(a, c), Expr::Mul(b, d)) => same_expr(a.get(), b.get())
            && same_expr(c.get(), d.get()),
        (Expr::Min(a, c), Expr::Min(b, d)) => same_expr(a.get(), b.get())
            && same_expr(c.get(), d.get()),
        (Expr::Max(a, c), Expr::Max(b, d)) => same_expr(a.get(), b.get())
            && same_expr(c.get(), d.get()),
        (Expr::If(a, c, e), Expr::If(b, d, f)) => {
            same_expr(a.get(), b.get())
                && same_expr(c.get(), d.get())
                && same_expr(e.get(), f.get())
        }
        (Expr::Div(a, c), Expr::Div(b, d)) => same_expr(a.get(), b.get()) && *c == *d,
        _ => false,
    }
}

fn is_product(a: u64, b: u64, product: u64) -> bool
    ensures { result ≡ (a * b == product) }
{
    match a.checked_mul(b) {
        Some(value) => value == product,
        None => false,
    }
}

// Whether the other part is this one with its weight multiplied.
fn is_times(times: u64, part: &Part, other: &Part) -> bool
    ensures { result ≡ is_times times part.now other.now }
{
    is_product(part.weight, times, other.weight)
        && same_expr(&part.expr, &other.expr)
        && part.at_end == other.at_end
}

/// Whether the others are these parts, in order, with each weight multiplied by one number.
pub fn are_times(times: u64, parts: &[Part], others: &[Part]) -> bool
    ensures { result ≡ are_times times parts.now others.now }
{
    match parts {
        [] => others.is_empty(),
        [part, parts @ ..] => match others {
            [] => false,
            [other, others @ ..] => {
                is_times(times, part, other) && are_times(times, parts, others)
            }
        },
    }
}

fn same_rule(a: &Rule, b: &Rule) -> bool
    ensures { result ≡ same_rule a.now b.now }
{
    same_name(&a.name, &b.name) && are_times(1, a.parts.as_slice(), b.parts.as_slice())
}

/// Whether one of the others is equal to the rule, with name and parts.
pub fn has_equal(others: &[Rule], rule: &Rule) -> bool
    ensures { result ≡ has_equal others.now rule.now }
{
    others.iter().any(|other| same_rule(rule, other))
}
