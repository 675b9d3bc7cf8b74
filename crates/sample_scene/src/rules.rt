ghost use Rattle.std.specs.Prelude.{◌≡◌, [], ◌∷◌, map, IfOk, IsTrue, None};
ghost use Rattle.preorder.specs.Name.{is_name};
ghost use Rattle.expressions.specs.declared.tree.Expr.TheVariants as expr;
ghost use Rattle.sample_scene.specs.Rules.{book, driven, feature, near, part, rule, rules};
ghost use Rattle.sample_scene.specs.Rules.{changing_names, turning_names};

use crate::literal::name;
use expressions::{Argument, Expr};
use preorder::{List, Name, NoMemory};
use rule_language::{Book, Part, Rule};
use sqlite_items::Boxed;
use std::alloc::Global;

// The feature of a name.
fn feature(text: &[u8]) -> Expr
    requires { IsTrue (is_name text.now) }
    ensures { result ≡ feature text.now }
{
    Expr::Feature(name(text), None)
}

// A part of weight 1, at each step.
fn part(expr: Expr) -> Part
    ensures { result ≡ part expr }
{
    Part {
        weight: 1,
        expr,
        at_end: false,
    }
}

// Whether the maneuver of the name is driven.
#[tactic(auto, unfolding(preorder::specs::Name::is_name))]
fn driven(maneuver: Name) -> Part
    ensures { result ≡ driven maneuver }
{
    part(Expr::Feature(name(b"maneuver"), Some(Argument::Named(maneuver))))
}

// How far a gap is below 2 m.
#[tactic(auto, unfolding(preorder::specs::Name::is_name))]
fn near(alloc: Global) -> Result<Expr, NoMemory>
    ensures { IfOk result (λ e. e ≡ near) }
{
    let least = Boxed::new(alloc, Expr::Const(20_000))?;
    let gap = Boxed::new(alloc, feature(b"gap"))?;
    let none = Boxed::new(alloc, Expr::Const(0))?;
    let below = Boxed::new(alloc, Expr::Sub(least, gap))?;
    Ok(Expr::Max(none, below))
}

fn one_part(alloc: Global, expr: Expr) -> Result<List<Part>, NoMemory>
    ensures { IfOk result (λ parts. parts ≡ part expr ∷ []) }
{
    let mut parts = List::new(alloc);
    parts.push(part(expr))?;
    Ok(parts)
}

// A part for each of the maneuvers.
fn driven_parts(alloc: Global, names: &[Name]) -> Result<List<Part>, NoMemory>
    ensures { IfOk result (λ parts. parts ≡ map driven names.now) }
{
    let mut parts = List::new(alloc);
    for name in names {
        parts.push(driven(*name))?;
    }
    Ok(parts)
}

// The maneuvers to another speed.
#[tactic(auto, unfolding(preorder::specs::Name::is_name))]
fn changing_parts(alloc: Global) -> Result<List<Part>, NoMemory>
    ensures { IfOk result (λ parts. parts ≡ map driven changing_names) }
{
    let names = [
        name(b"up_slow"),
        name(b"up_mid"),
        name(b"down_mid"),
        name(b"down_fast"),
    ];
    driven_parts(alloc, &names)
}

// The maneuvers to another lane.
#[tactic(auto, unfolding(preorder::specs::Name::is_name))]
fn turning_parts(alloc: Global) -> Result<List<Part>, NoMemory>
    ensures { IfOk result (λ parts. parts ≡ map driven turning_names) }
{
    let names = [
        name(b"left_slow"),
        name(b"right_slow"),
        name(b"left_mid"),
        name(b"right_mid"),
        name(b"left_fast"),
        name(b"right_fast"),
    ];
    driven_parts(alloc, &names)
}

fn rule(text: &[u8], parts: List<Part>) -> Rule
    requires { IsTrue (is_name text.now) }
    ensures { result ≡ rule text.now parts }
{
    Rule {
        name: name(text),
        parts,
    }
}

// The rules, in their order.
#[tactic(auto, unfolding(preorder::specs::Name::is_name))]
fn rules(alloc: Global) -> Result<List<Rule>, NoMemory>
    ensures { IfOk result (λ them. them ≡ rules) }
{
    let mut rules = List::new(alloc);
    rules.push(rule(b"collision", one_part(alloc, feature(b"overlaps"))?))?;
    rules.push(rule(b"road", one_part(alloc, feature(b"off_road"))?))?;
    rules.push(rule(b"gap", one_part(alloc, near(alloc)?)?))?;
    rules.push(rule(b"smooth", changing_parts(alloc)?))?;
    rules.push(rule(b"lane", turning_parts(alloc)?))?;
    Ok(rules)
}

// What is above what, by the places of the rules.
fn statements(alloc: Global) -> Result<List<(usize, usize)>, NoMemory>
    ensures { IfOk result (λ pairs. pairs ≡ (0, 1) ∷ (1, 2) ∷ (2, 3) ∷ (2, 4) ∷ []) }
{
    let mut statements = List::new(alloc);
    statements.push((0, 1))?;
    statements.push((1, 2))?;
    statements.push((2, 3))?;
    statements.push((2, 4))?;
    Ok(statements)
}

/// The book.
#[tactic(auto, unfolding(crate::specs::Rules::book))]
pub fn book(alloc: Global) -> Result<Book, NoMemory>
    ensures { IfOk result (λ it. it ≡ book) }
{
    Ok(Book {
        rules: rules(alloc)?,
        statements: statements(alloc)?,
    })
}
