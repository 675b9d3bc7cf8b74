ghost use Rattle.std.specs.Prelude.{◌≡◌, IfOk, IfErr, All, map};
ghost use Rattle.rule_language.specs.Books.{IsBook};
ghost use Rattle.violation_measures.specs.Binding.{MayBind, RuleMayBind, IsBookPart, IsBookRule};
ghost use Rattle.violation_measures.specs.Binding.{IsFaultOfPart, IsFaultOfParts, IsFaultOfRule};
ghost use Rattle.violation_measures.specs.Binding.{IsFaultOf, IsBoundTo};
ghost use Rattle.violation_measures.specs.Resolved.{resolved_part, resolved_rules, resolved_book};

use super::{Bound, BoundPart, BoundRule};
use crate::bind_fault::BindFault;
use crate::interval::are_known;
use crate::range::range_of;
use crate::resolve::resolve;
use crate::source::FeatureSource;
use crate::used::used_by;
use preorder::{List, NoMemory};
use rule_language::{Book, Part, Rule, copy_book};
use std::alloc::Global;

// First for unknown features, then for range.
fn test_part<S: FeatureSource>(source: &S, number: usize, part: &Part) -> Result<(), BindFault>
    requires { IsBookPart part.now }
    ensures ok { IfOk result (λ _. MayBind (S.features source.now) part.now) }
    ensures fault { IfErr result (IsFaultOfPart (S.features source.now) number part.now) }
{
    if !are_known(source, &part.expr) {
        return Err(BindFault::UnknownFeature(number));
    }
    match range_of(source, &part.expr) {
        Some(_) => Ok(()),
        None => Err(BindFault::RangeTooLarge(number)),
    }
}

fn test_parts<S: FeatureSource>(source: &S, number: usize, parts: &[Part]) -> Result<(), BindFault>
    requires { All IsBookPart parts.now }
    ensures ok { IfOk result (λ _. All (MayBind (S.features source.now)) parts.now) }
    ensures fault { IfErr result (IsFaultOfParts (S.features source.now) number parts.now) }
{
    for part in parts {
        test_part(source, number, part)?;
    }
    Ok(())
}

fn test_rule<S: FeatureSource>(source: &S, number: usize, rule: &Rule) -> Result<(), BindFault>
    requires { IsBookRule rule.now }
    ensures ok { IfOk result (λ _. RuleMayBind (S.features source.now) rule.now) }
    ensures fault { IfErr result (IsFaultOfRule (S.features source.now) number rule.now) }
{
    let parts = rule.parts.as_slice();
    if parts.is_empty() {
        return Err(BindFault::BareRule(number));
    }
    test_parts(source, number, parts)
}

fn test_rules<S: FeatureSource>(source: &S, rules: &[Rule]) -> Result<(), BindFault>
    requires { All IsBookRule rules.now }
    ensures ok { IfOk result (λ _. All (RuleMayBind (S.features source.now)) rules.now) }
    ensures fault { IfErr result (IsFaultOf (S.features source.now) rules.now) }
{
    for number in 0..rules.len() {
        test_rule(source, number, &rules[number])?;
    }
    Ok(())
}

fn resolve_part<S: FeatureSource>(
    alloc: Global,
    source: &S,
    at_steps: &[u32],
    at_end: &[u32],
    part: &Part,
) -> Result<BoundPart, NoMemory>
    ensures { IfOk result (λ bound. bound ≡ resolved_part
        (S.features source.now).find at_steps.now at_end.now part.now) }
{
    let used = if part.at_end { at_end } else { at_steps };
    Ok(BoundPart {
        weight: part.weight,
        at_end: part.at_end,
        formula: resolve(alloc, source, used, &part.expr)?,
    })
}

fn resolve_parts<S: FeatureSource>(
    alloc: Global,
    source: &S,
    at_steps: &[u32],
    at_end: &[u32],
    parts: &[Part],
) -> Result<List<BoundPart>, NoMemory>
    ensures { IfOk result (λ bound. bound ≡ map (resolved_part
        (S.features source.now).find at_steps.now at_end.now) parts.now) }
{
    let mut bound = List::new(alloc);
    for part in parts {
        bound.push(resolve_part(alloc, source, at_steps, at_end, part)?)?;
    }
    Ok(bound)
}

fn resolve_rules<S: FeatureSource>(
    alloc: Global,
    source: &S,
    at_steps: &[u32],
    at_end: &[u32],
    rules: &[Rule],
) -> Result<List<BoundRule>, NoMemory>
    ensures { IfOk result (λ bound. bound ≡ resolved_rules
        (S.features source.now).find at_steps.now at_end.now rules.now) }
{
    let mut bound = List::new(alloc);
    for rule in rules {
        bound.push(BoundRule {
            parts: resolve_parts(alloc, source, at_steps, at_end, rule.parts.as_slice())?,
        })?;
    }
    Ok(bound)
}

// The book with its rules as they are worked out.
fn resolve_book<S: FeatureSource>(alloc: Global, book: &Book, source: &S) -> Result<Bound, NoMemory>
    ensures { IfOk result (λ bound. bound ≡ resolved_book (S.features source.now).find book.now) }
{
    let rules = book.rules.as_slice();
    let at_steps = used_by(alloc, source, false, rules)?;
    let at_end = used_by(alloc, source, true, rules)?;
    let rules = resolve_rules(alloc, source, at_steps.as_slice(), at_end.as_slice(), rules)?;
    Ok(Bound {
        book: copy_book(alloc, book)?,
        at_steps,
        at_end,
        rules,
    })
}

/// The book, bound to the source: each of its rules has a part, the source knows every feature, and
/// no interval of a subexpression passes 10^18 in size.
///
/// Rules are tried in order, a rule's parts in order, each part first for unknown features and then
/// for range.
/// Features are found and constant subexpressions are worked out here, and not at each step.
pub fn bind<S: FeatureSource>(alloc: Global, book: &Book, source: &S) -> Result<Bound, BindFault>
    requires { IsBook book.now }
    ensures book { IfOk result (λ bound. bound.book ≡ book.now) }
    ensures exact { IfOk result (λ bound. bound ≡ resolved_book
        (S.features source.now).find book.now) }
    ensures bound { IfOk result (IsBoundTo (S.features source.now)) }
    ensures fault { IfErr result (IsFaultOf (S.features source.now) book.now.rules) }
{
    test_rules(source, book.rules.as_slice())?;
    Ok(resolve_book(alloc, book, source)?)
}
