ghost use Rattle.std.specs.Prelude.{◌≡◌, ◌++◌, ◌∷◌, [], ◌≤◌, OnOk, IsTrue};
ghost use Rattle.std.specs.Prelude.{is_ok, if◌then◌else◌};
ghost use Rattle.std.specs.Fmt.{signed_decimal, decimal};
ghost use Rattle.expressions.specs.Written.{written, written_argument, written_feature, nesting};
ghost use Rattle.expressions.specs.Written.{is_well_formed};
ghost use Rattle.expressions.specs.Grammar.{IsTextOf};
ghost use Rattle.expressions.specs.declared.tree.Expr.{Expr};

use crate::tree::{Argument, Expr};
use preorder::Name;
use std::alloc::{AllocError, Global};

fn push_constant(alloc: Global, out: &mut Vec<u8>, value: i64) -> Result<(), AllocError>
    ensures { OnOk result (out.new.items ≡ out.old.items ++ signed_decimal value) }
{
    let digits = value.to_string(alloc)?;
    out.extend_from_slice(digits.as_bytes())
}

fn push_argument(alloc: Global, out: &mut Vec<u8>, argument: &Argument) -> Result<(), AllocError>
    ensures { OnOk result (out.new.items ≡ out.old.items ++ written_argument argument.now) }
{
    match argument {
        Argument::Named(about) => out.extend_from_slice(about.as_slice()),
        Argument::Number(number) => {
            let digits = number.to_string(alloc)?;
            out.extend_from_slice(digits.as_bytes())
        }
    }
}

fn push_feature(
    alloc: Global,
    out: &mut Vec<u8>,
    name: &Name,
    argument: &Option<Argument>,
) -> Result<(), AllocError>
    ensures { OnOk result (out.new.items ≡ out.old.items ++ written_feature name.now argument.now) }
{
    out.extend_from_slice(name.as_slice())?;
    if let Some(argument) = argument {
        out.push(b'(')?;
        push_argument(alloc, out, argument)?;
        out.push(b')')?;
    }
    Ok(())
}

// Appends an expression with a text before it.
#[cycle(written)]
fn push_behind(
    alloc: Global,
    out: &mut Vec<u8>,
    before: &[u8],
    expr: &Expr,
) -> Result<(), AllocError>
    ensures { OnOk result (out.new.items ≡ out.old.items ++ (before.now ++ written expr.now)) }
{
    out.extend_from_slice(before)?;
    push_tree(alloc, out, expr)
}

#[cycle(written)]
fn push_tree(alloc: Global, out: &mut Vec<u8>, expr: &Expr) -> Result<(), AllocError>
    ensures { OnOk result (out.new.items ≡ out.old.items ++ written expr.now) }
{
    match expr {
        Expr::Const(value) => return push_constant(alloc, out, *value),
        Expr::Feature(name, argument) => return push_feature(alloc, out, name, argument),
        Expr::Neg(a) => return push_behind(alloc, out, b"-", a.get()),
        Expr::Abs(a) => push_behind(alloc, out, b"abs(", a.get())?,
        Expr::Add(a, b) => {
            push_behind(alloc, out, b"(", a.get())?;
            push_behind(alloc, out, b" + ", b.get())?;
        }
        Expr::Sub(a, b) => {
            push_behind(alloc, out, b"(", a.get())?;
            push_behind(alloc, out, b" - ", b.get())?;
        }
        Expr::Mul(a, b) => {
            push_behind(alloc, out, b"(", a.get())?;
            push_behind(alloc, out, b" * ", b.get())?;
        }
        Expr::Min(a, b) => {
            push_behind(alloc, out, b"min(", a.get())?;
            push_behind(alloc, out, b", ", b.get())?;
        }
        Expr::Max(a, b) => {
            push_behind(alloc, out, b"max(", a.get())?;
            push_behind(alloc, out, b", ", b.get())?;
        }
        Expr::If(a, b, c) => {
            push_behind(alloc, out, b"if(", a.get())?;
            push_behind(alloc, out, b", ", b.get())?;
            push_behind(alloc, out, b", ", c.get())?;
        }
        Expr::Div(a, divisor) => {
            push_behind(alloc, out, b"div(", a.get())?;
            out.extend_from_slice(b", ")?;
            push_constant(alloc, out, *divisor)?;
        }
    }
    out.push(b')')?;
    Ok(())
}

/// Appends the text that an expression is written as. Where memory can't be had, nothing is
/// appended.
pub fn push_expr(alloc: Global, out: &mut Vec<u8>, expr: &Expr) -> Result<(), AllocError>
    ensures { out.new.items
        ≡ (if is_ok result then out.old.items ++ written expr.now else out.old.items) }
{
    let mut text = Vec::new(alloc);
    push_tree(alloc, &mut text, expr)?;
    out.extend_from_slice(text.as_slice())
}

/// The written form of an expression that a book may hold is its text.
pub fn written_is_text()
    ensures { (e : Expr) → IsTrue (is_well_formed e) → nesting e ≤ 32 → IsTextOf (written e) e }
{}
