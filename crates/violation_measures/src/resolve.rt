ghost use Rattle.std.specs.Prelude.{◌≡◌, ◌==◌, IfOk, IfSome};
ghost use Rattle.std.specs.List.{position};
ghost use Rattle.violation_measures.specs.Checked.{IsSmall, of_one, of_two};
ghost use Rattle.violation_measures.specs.Formulas.{on_number, on_numbers, constant, one, two};
ghost use Rattle.violation_measures.specs.Formulas.{choice, quotient, place_among, feature_at};
ghost use Rattle.violation_measures.specs.Formulas.{resolved};

use crate::formula::{Binary, Formula, Unary};
use crate::source::FeatureSource;
use crate::value::{applied, chosen, combined, cut, divided};
use preorder::{Name, NoMemory};
use rule_language::{Argument, Expr};
use sqlite_items::Boxed;
use std::alloc::Global;

// The number of a formula that is one.
fn constant(formula: &Formula) -> Option<i128>
    ensures exact { result ≡ constant formula.now }
    ensures small { IfSome result IsSmall }
{
    match formula {
        Formula::Const(value) => cut(i128::from(*value)),
        Formula::Measured(_) | Formula::Asked(_, _) => None,
        Formula::One(_, _) | Formula::Two(_, _, _) => None,
        Formula::If(_, _, _) | Formula::Div(_, _) => None,
    }
}

fn one(alloc: Global, operation: Unary, a: Formula) -> Result<Formula, NoMemory>
    ensures { IfOk result (λ formula. formula ≡ one operation a) }
{
    match applied(operation, constant(&a)) {
        Some(value) => Ok(Formula::Const(value as i64)),
        None => Ok(Formula::One(operation, Boxed::new(alloc, a)?)),
    }
}

fn two(alloc: Global, operation: Binary, a: Formula, b: Formula) -> Result<Formula, NoMemory>
    ensures { IfOk result (λ formula. formula ≡ two operation a b) }
{
    match combined(operation, constant(&a), constant(&b)) {
        Some(value) => Ok(Formula::Const(value as i64)),
        None => Ok(Formula::Two(operation, Boxed::new(alloc, a)?, Boxed::new(alloc, b)?)),
    }
}

fn choice(alloc: Global, a: Formula, b: Formula, c: Formula) -> Result<Formula, NoMemory>
    ensures { IfOk result (λ formula. formula ≡ choice a b c) }
{
    match chosen(constant(&a), constant(&b), constant(&c)) {
        Some(value) => Ok(Formula::Const(value as i64)),
        None => Ok(Formula::If(
            Boxed::new(alloc, a)?,
            Boxed::new(alloc, b)?,
            Boxed::new(alloc, c)?,
        )),
    }
}

fn quotient(alloc: Global, a: Formula, divisor: i64) -> Result<Formula, NoMemory>
    ensures { IfOk result (λ formula. formula ≡ quotient a divisor) }
{
    match divided(constant(&a), divisor) {
        Some(value) => Ok(Formula::Const(value as i64)),
        None => Ok(Formula::Div(Boxed::new(alloc, a)?, divisor)),
    }
}

fn place_of(used: &[u32], number: u32) -> Option<usize>
    ensures { result ≡ position (λ other. other == number) used.now }
{
    used.iter().position(|other| *other == number)
}

// The place of a number among those that are measured.
fn place_among(used: &[u32], number: Option<u32>) -> Option<usize>
    ensures { result ≡ place_among used.now number }
{
    match number {
        Some(number) => place_of(used, number),
        None => None,
    }
}

fn feature_at(place: Option<usize>, name: &Name, argument: &Option<Argument>) -> Formula
    ensures { result ≡ feature_at place name.now argument.now }
{
    match place {
        Some(place) => Formula::Measured(place),
        None => Formula::Asked(*name, *argument),
    }
}

/// The formula of an expression, where the features of the numbers used are measured.
pub fn resolve<S: FeatureSource>(
    alloc: Global,
    source: &S,
    used: &[u32],
    expr: &Expr,
) -> Result<Formula, NoMemory>
    ensures { IfOk result (λ formula. formula ≡ resolved
        (S.features source.now).find used.now expr.now) }
{
    match expr {
        Expr::Const(value) => Ok(Formula::Const(*value)),
        Expr::Feature(name, argument) => {
            let place = place_among(used, source.find(name, argument.as_ref()));
            Ok(feature_at(place, name, argument))
        }
        Expr::Neg(a) => one(alloc, Unary::Neg, resolve(alloc, source, used, a.get())?),
        Expr::Abs(a) => one(alloc, Unary::Abs, resolve(alloc, source, used, a.get())?),
        Expr::Add(a, b) => two(
            alloc,
            Binary::Add,
            resolve(alloc, source, used, a.get())?,
            resolve(alloc, source, used, b.get())?,
        ),
        Expr::Sub(a, b) => two(
            alloc,
            Binary::Sub,
            resolve(alloc, source, used, a.get())?,
            resolve(alloc, source, used, b.get())?,
        ),
        Expr::Mul(a, b) => two(
            alloc,
            Binary::Mul,
            resolve(alloc, source, used, a.get())?,
            resolve(alloc, source, used, b.get())?,
        ),
        Expr::Min(a, b) => two(
            alloc,
            Binary::Min,
            resolve(alloc, source, used, a.get())?,
            resolve(alloc, source, used, b.get())?,
        ),
        Expr::Max(a, b) => two(
            alloc,
            Binary::Max,
            resolve(alloc, source, used, a.get())?,
            resolve(alloc, source, used, b.get())?,
        ),
        Expr::If(a, b, c) => choice(
            alloc,
            resolve(alloc, source, used, a.get())?,
            resolve(alloc, source, used, b.get())?,
            resolve(alloc, source, used, c.get())?,
        ),
        Expr::Div(a, divisor) => {
            quotient(alloc, resolve(alloc, source, used, a.get())?, *divisor)
        }
    }
}
