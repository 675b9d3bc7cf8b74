ghost use Rattle.std.specs.Prelude.{◌≡◌, ◌+◌, ◌<◌, length, min};
ghost use Rattle.std.specs.Fmt.{decimal, signed_decimal};
ghost use Rattle.expressions.specs.Written.{written, written_argument, written_feature, nesting};

use crate::limits::{MAX_BRACKETS, MAX_LINE};
use crate::tree::{Argument, Expr};
use preorder::Name;

/// How many digits a number has in decimal.
pub fn decimal_len(value: u64) -> usize
    ensures exact { result ≡ length (decimal value) }
    ensures small { result < 21 }
{
    let mut rest = value;
    let mut len = 1;
    while rest >= 10 {
        rest /= 10;
        len += 1;
    }
    len
}

fn constant_len(value: i64) -> usize
    ensures exact { result ≡ length (signed_decimal value) }
    ensures small { result < 22 }
{
    if value < 0 {
        1 + decimal_len(value.unsigned_abs())
    } else {
        decimal_len(value as u64)
    }
}

fn argument_len(argument: &Argument) -> usize
    ensures exact { result ≡ length (written_argument argument.now) }
    ensures small { result < 25 }
{
    match argument {
        Argument::Named(about) => name_len(about),
        Argument::Number(number) => decimal_len(*number),
    }
}

fn feature_len(name: &Name, argument: &Option<Argument>) -> usize
    ensures exact { result ≡ length (written_feature name.now argument.now) }
    ensures small { result < 51 }
{
    match argument {
        None => name_len(name),
        Some(argument) => name_len(name) + argument_len(argument) + 2,
    }
}

fn name_len(name: &Name) -> usize
    ensures exact { result ≡ length name.now }
    ensures small { result < 25 }
{
    name.as_slice().len()
}

/// How many bytes the written form has, where `MAX_LINE + 1` stands for all that are more than a
/// line may have.
pub fn written_len(expr: &Expr) -> usize
    ensures { result ≡ min (length (written expr.now)) (MAX_LINE + 1) }
{
    let len = match expr {
        Expr::Const(value) => constant_len(*value),
        Expr::Feature(name, argument) => feature_len(name, argument),
        Expr::Neg(a) => written_len(a.get()) + 1,
        Expr::Abs(a) => written_len(a.get()) + 5,
        Expr::Add(a, b) => written_len(a.get()) + written_len(b.get()) + 5,
        Expr::Sub(a, b) => written_len(a.get()) + written_len(b.get()) + 5,
        Expr::Mul(a, b) => written_len(a.get()) + written_len(b.get()) + 5,
        Expr::Min(a, b) => written_len(a.get()) + written_len(b.get()) + 7,
        Expr::Max(a, b) => written_len(a.get()) + written_len(b.get()) + 7,
        Expr::If(a, b, c) => {
            written_len(a.get()) + written_len(b.get()) + written_len(c.get()) + 8
        }
        Expr::Div(a, divisor) => written_len(a.get()) + constant_len(*divisor) + 7,
    };
    len.min(MAX_LINE + 1)
}

/// How many brackets of the written form stand inside each other, where `MAX_BRACKETS + 1` stands
/// for all that are too many.
pub fn nesting(expr: &Expr) -> usize
    ensures { result ≡ min (nesting expr.now) (MAX_BRACKETS + 1) }
{
    let deep = match expr {
        Expr::Const(_) | Expr::Feature(_, None) => 0,
        Expr::Feature(_, Some(_)) => 1,
        Expr::Neg(a) => nesting(a.get()),
        Expr::Abs(a) | Expr::Div(a, _) => nesting(a.get()) + 1,
        Expr::Add(a, b) | Expr::Sub(a, b) | Expr::Mul(a, b) | Expr::Min(a, b) | Expr::Max(a, b) => {
            nesting(a.get()).max(nesting(b.get())) + 1
        }
        Expr::If(a, b, c) => nesting(a.get()).max(nesting(b.get())).max(nesting(c.get())) + 1,
    };
    deep.min(MAX_BRACKETS + 1)
}
