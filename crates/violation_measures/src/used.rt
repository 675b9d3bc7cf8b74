ghost use Rattle.std.specs.Prelude.{◌≡◌, ◌==◌, OnOk, IfOk, if◌then◌else◌, []};
ghost use Rattle.std.specs.List.{fold, list_any};
ghost use Rattle.violation_measures.specs.Measured.{noted, numbers, is_of_kind, part_numbers};
ghost use Rattle.violation_measures.specs.Measured.{used_by};

use crate::source::FeatureSource;
use preorder::{List, NoMemory};
use rule_language::{Expr, Part, Rule};
use std::alloc::Global;

/// The most features that are measured once a step, and once at the end. A book's further features
/// are found and measured where they stand.
pub const MAX_MEASURED: usize = 64;

fn is_noted(used: &[u32], number: u32) -> bool
    ensures { result ≡ list_any (λ other. other == number) used.now }
{
    used.iter().any(|other| *other == number)
}

// One number more, where it is new and there is room.
fn note(used: &mut List<u32>, number: u32) -> Result<(), NoMemory>
    ensures { OnOk result (used.new ≡ noted used.old number) }
{
    let numbers = used.as_slice();
    if numbers.len() >= MAX_MEASURED || is_noted(numbers, number) {
        return Ok(());
    }
    used.push(number)
}

fn note_features<S: FeatureSource>(
    source: &S,
    expr: &Expr,
    used: &mut List<u32>,
) -> Result<(), NoMemory>
    ensures { OnOk result (used.new ≡ fold noted used.old
        (numbers (S.features source.now).find expr.now)) }
{
    match expr {
        Expr::Const(_) => Ok(()),
        Expr::Feature(name, argument) => match source.find(name, argument.as_ref()) {
            Some(number) => note(used, number),
            None => Ok(()),
        },
        Expr::Neg(a) | Expr::Abs(a) | Expr::Div(a, _) => note_features(source, a.get(), used),
        Expr::Add(a, b) | Expr::Sub(a, b) | Expr::Mul(a, b) | Expr::Min(a, b) | Expr::Max(a, b) => {
            note_features(source, a.get(), used)?;
            note_features(source, b.get(), used)
        }
        Expr::If(a, b, c) => {
            note_features(source, a.get(), used)?;
            note_features(source, b.get(), used)?;
            note_features(source, c.get(), used)
        }
    }
}

fn is_of_kind(at_end: bool, part: &Part) -> bool
    ensures { result ≡ is_of_kind at_end part.now }
{
    if at_end { part.at_end } else { !part.at_end }
}

fn note_part<S: FeatureSource>(
    source: &S,
    at_end: bool,
    part: &Part,
    used: &mut List<u32>,
) -> Result<(), NoMemory>
    ensures { OnOk result (used.new ≡ fold noted used.old
        (if is_of_kind at_end part.now then numbers (S.features source.now).find part.now.expr
        else [])) }
{
    if !is_of_kind(at_end, part) {
        return Ok(());
    }
    note_features(source, &part.expr, used)
}

fn note_parts<S: FeatureSource>(
    source: &S,
    at_end: bool,
    parts: &[Part],
    used: &mut List<u32>,
) -> Result<(), NoMemory>
    ensures { OnOk result (used.new ≡ fold noted used.old
        (part_numbers (S.features source.now).find at_end parts.now)) }
{
    for part in parts {
        note_part(source, at_end, part, used)?;
    }
    Ok(())
}

/// The numbers of the first `MAX_MEASURED` features that the parts of the end name, or the other
/// parts, each once.
#[tactic(auto, unfolding(crate::specs::Measured::used_by))]
pub fn used_by<S: FeatureSource>(
    alloc: Global,
    source: &S,
    at_end: bool,
    rules: &[Rule],
) -> Result<List<u32>, NoMemory>
    ensures { IfOk result (λ used. used ≡ used_by (S.features source.now).find at_end rules.now) }
{
    let mut used = List::new(alloc);
    for rule in rules {
        note_parts(source, at_end, rule.parts.as_slice(), &mut used)?;
    }
    Ok(used)
}
