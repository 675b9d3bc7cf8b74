ghost use Rattle.std.specs.Prelude.{◌≡◌, [], ◌∷◌, ◌++◌, ◌<◌, ◌≤◌, ℕ, All, IsTrue, IfOk, IfSome};
ghost use Rattle.std.specs.Prelude.{OnOk, List as Items, not, length, map};
ghost use Rattle.std.specs.List.{flat_map, position};
ghost use Rattle.preorder.specs.Statements.{InRange};
ghost use Rattle.reading.specs.Reading.{Gives};
ghost use Rattle.rule_language.specs.Books.{IsBook, IsRule};
ghost use Rattle.rule_language.specs.declared.limits.TheConstants.{MAX_WEIGHT as LARGEST};
ghost use Rattle.rule_language.specs.declared.part.Part.{Part};
ghost use Rattle.book_operations.specs.Images.{AreImages, is_new};
ghost use Rattle.book_operations.specs.Merging.{factor_in, are_factors, are_known, is_weight};
ghost use Rattle.book_operations.specs.Merging.{are_weights, is_merged, given_parts, merged_parts};
ghost use Rattle.book_operations.specs.Merging.{fits, kept_rules, first_merged, with_new, restated};
ghost use Rattle.book_operations.specs.Merging.{merged_book, new_name, with_parts, merge_line};
ghost use Rattle.book_operations.specs.Merging.{weight_in};
ghost use Rattle.book_operations.specs.Same.{scaled};
ghost use Rattle.book_operations.specs.Scripts.{is_memory};
ghost use Rattle.std.specs.List.{list_all};
ghost use Rattle.std.specs.Str.{bytes_eq};
ghost use Rattle.std.specs.Option.{unwrap_or};

use crate::factors::{are_factors, are_known, are_weights, is_merged, is_weight, small_factor};
use crate::fault::DeriveFault;
use crate::images::{first_new, images_of, place_of};
use preorder::{List, Name, NoMemory};
use rule_language::{Book, MAX_PARTS, Part, Rule, copy_part, copy_rule, written_fits};
use std::alloc::Global;

fn push_scaled(
    alloc: Global,
    parts: &mut List<Part>,
    times: u64,
    part: &Part,
) -> Result<(), NoMemory>
    requires weight { part.now.weight ≤ LARGEST }
    requires times { times ≤ LARGEST }
    ensures { OnOk result (parts.new ≡ parts.old ++ scaled times part.now ∷ []) }
{
    let mut copy = copy_part(alloc, part)?;
    copy.weight *= times;
    parts.push(copy)
}

// Appends the parts with their weights multiplied.
fn push_all_scaled(
    alloc: Global,
    parts: &mut List<Part>,
    times: u64,
    all: &[Part],
) -> Result<(), NoMemory>
    requires weights { All (λ (part : Part). part.weight ≤ LARGEST) all.now }
    requires times { times ≤ LARGEST }
    ensures { OnOk result (parts.new ≡ parts.old ++ map (scaled times) all.now) }
{
    for part in all {
        push_scaled(alloc, parts, times, part)?;
    }
    Ok(())
}

// Appends what the rule gives to the new rule.
fn push_given(
    alloc: Global,
    parts: &mut List<Part>,
    words: &[&[u8]],
    rule: &Rule,
) -> Result<(), NoMemory>
    requires rule { IsRule rule.now }
    requires weights { IsTrue (are_weights (map (λ w. w.now) words.now)) }
    ensures { OnOk result (parts.new ≡ parts.old ++ given_parts
        (map (λ w. w.now) words.now) rule.now) }
{
    match small_factor(words, rule.name.as_slice()) {
        Some(times) => push_all_scaled(alloc, parts, times, rule.parts.as_slice()),
        None => Ok(()),
    }
}

// The parts of the new rule, in the order of the rules.
fn merged_parts(alloc: Global, words: &[&[u8]], rules: &[Rule]) -> Result<List<Part>, NoMemory>
    requires rules { All IsRule rules.now }
    requires weights { IsTrue (are_weights (map (λ w. w.now) words.now)) }
    ensures { IfOk result (λ parts. parts ≡ merged_parts (map (λ w. w.now) words.now) rules.now) }
{
    let mut parts = List::new(alloc);
    for rule in rules {
        push_given(alloc, &mut parts, words, rule)?;
    }
    Ok(parts)
}

fn position_merged(words: &[&[u8]], rules: &[Rule]) -> Option<usize>
    ensures inside { IfSome result (λ i. i < length rules.now) }
    ensures exact { result ≡ position (is_merged (map (λ w. w.now) words.now)) rules.now }
{
    rules.iter().position(|rule| is_merged(words, rule))
}

fn first_merged(words: &[&[u8]], rules: &[Rule]) -> usize
    ensures inside { result ≤ length rules.now }
    ensures exact { result ≡ first_merged (map (λ w. w.now) words.now) rules.now }
{
    position_merged(words, rules).unwrap_or(0)
}

// Appends the rules that are not merged.
fn push_kept(
    alloc: Global,
    kept: &mut List<Rule>,
    words: &[&[u8]],
    rules: &[Rule],
) -> Result<(), NoMemory>
    ensures { OnOk result (kept.new ≡ kept.old ++ kept_rules
        (map (λ w. w.now) words.now) rules.now) }
{
    for rule in rules {
        if !is_merged(words, rule) {
            kept.push(copy_rule(alloc, rule)?)?;
        }
    }
    Ok(())
}

// The rules with the new one at the place of the first that is merged, and without those that are.
fn with_new(
    alloc: Global,
    new: Rule,
    words: &[&[u8]],
    rules: &[Rule],
) -> Result<List<Rule>, NoMemory>
    ensures { IfOk result (λ all. all ≡ with_new new (map (λ w. w.now) words.now) rules.now) }
{
    let first = first_merged(words, rules);
    let mut all = List::new(alloc);
    push_kept(alloc, &mut all, words, &rules[..first])?;
    all.push(new)?;
    push_kept(alloc, &mut all, words, &rules[first..])?;
    Ok(all)
}

// Appends the statement on what the rules become, if it is not one of the new rule with itself.
fn push_restated(
    statements: &mut List<(usize, usize)>,
    rules: &[Rule],
    others: &[Rule],
    images: &[usize],
    statement: (usize, usize),
) -> Result<(), NoMemory>
    requires images { AreImages rules.now others.now images.now }
    requires inside { InRange (length rules.now) statement }
    ensures { OnOk result (statements.new ≡ statements.old
        ++ restated rules.now others.now statement) }
{
    let new = first_new(others, rules).unwrap_or(0);
    let (upper, lower) = (images[statement.0], images[statement.1]);
    if upper == new && lower == new {
        return Ok(());
    }
    statements.push((upper, lower))
}

fn restated(
    alloc: Global,
    rules: &[Rule],
    others: &[Rule],
    statements: &[(usize, usize)],
) -> Result<List<(usize, usize)>, NoMemory>
    requires some { 1 ≤ length others.now }
    requires inside { All (InRange (length rules.now)) statements.now }
    ensures { IfOk result (λ all. all ≡ flat_map (restated rules.now others.now) statements.now) }
{
    let images = images_of(alloc, rules, others)?;
    let mut all = List::new(alloc);
    for statement in statements {
        push_restated(&mut all, rules, others, images.as_slice(), *statement)?;
    }
    Ok(all)
}

// The book with the new rule in place of those that the words name.
fn merged_book(alloc: Global, new: Rule, words: &[&[u8]], book: &Book) -> Result<Book, NoMemory>
    requires { IsBook book.now }
    ensures { IfOk result (λ child. child ≡ merged_book new (map (λ w. w.now) words.now) book.now) }
{
    let rules = with_new(alloc, new, words, book.rules.as_slice())?;
    let statements = restated(
        alloc,
        book.rules.as_slice(),
        rules.as_slice(),
        book.statements.as_slice(),
    )?;
    Ok(Book { rules, statements })
}

fn all_weigh(parts: &[Part]) -> bool
    ensures { result ≡ list_all (λ (part : Part). is_weight part.weight) parts.now }
{
    parts.iter().all(|part| is_weight(part.weight))
}

fn all_fit(name: &Name, parts: &[Part]) -> bool
    ensures { result ≡ list_all (fits name.now) parts.now }
{
    parts.iter().all(|part| written_fits(name, part))
}

// The new name, if the line has its form, its rules are there, the name is new, and each weight is
// one.
#[tactic(auto, unfolding(crate::specs::Merging::new_name))]
fn new_name(
    number: usize,
    name: &[u8],
    words: &[&[u8]],
    rules: &[Rule],
) -> Result<Name, DeriveFault>
    ensures name { Gives is_memory (λ new. new) result
        (new_name number name.now (map (λ w. w.now) words.now) rules.now) }
    ensures weights { OnOk result (IsTrue (are_weights (map (λ w. w.now) words.now))) }
{
    let Some(new) = Name::new(name) else {
        return Err(DeriveFault::Syntax(number));
    };
    if words.len() < 4 || !are_factors(words) {
        return Err(DeriveFault::Syntax(number));
    }
    if !are_known(rules, words) {
        return Err(DeriveFault::UnknownRule(number));
    }
    if place_of(rules, name).is_some() {
        return Err(DeriveFault::DuplicateName(number));
    }
    if !are_weights(words) {
        return Err(DeriveFault::BadWeight(number));
    }
    Ok(new)
}

// The rule with these parts, if each weight is one, there are not too many, and each fits its
// written line.
#[tactic(auto, unfolding(crate::specs::Merging::with_parts))]
fn with_parts(number: usize, name: Name, parts: List<Part>) -> Result<Rule, DeriveFault>
    ensures { Gives is_memory (λ rule. rule) result (with_parts number name parts) }
{
    if !all_weigh(parts.as_slice()) {
        return Err(DeriveFault::BadWeight(number));
    }
    if parts.as_slice().len() > MAX_PARTS {
        return Err(DeriveFault::TooManyParts(number));
    }
    if !all_fit(&name, parts.as_slice()) {
        return Err(DeriveFault::Syntax(number));
    }
    Ok(Rule { name, parts })
}

/// The child of the line `merge NEW W1 A1 W2 A2 ..`, of which `name` and `words` are the words
/// after the first.
#[tactic(auto, unfolding(crate::specs::Merging::merge_line))]
pub fn merged(
    alloc: Global,
    number: usize,
    name: &[u8],
    words: &[&[u8]],
    book: &Book,
) -> Result<Book, DeriveFault>
    requires { IsBook book.now }
    ensures { Gives is_memory (λ child. child) result
        (merge_line number name.now (map (λ w. w.now) words.now) book.now) }
{
    let new = new_name(number, name, words, book.rules.as_slice())?;
    let parts = merged_parts(alloc, words, book.rules.as_slice())?;
    let rule = with_parts(number, new, parts)?;
    let child = merged_book(alloc, rule, words, book)?;
    Ok(child)
}
