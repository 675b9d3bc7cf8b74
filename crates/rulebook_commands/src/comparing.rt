ghost use Rattle.std.specs.Prelude.{◌≡◌, ◌++◌, ◌∷◌, [], ◌<◌, length, map, All, IfOk, OnOk};
ghost use Rattle.preorder.specs.Preorder.{rules_of};
ghost use Rattle.text_lines.specs.Lines.{word};
ghost use Rattle.rule_language.specs.Books.{IsBook};
ghost use Rattle.rule_language.specs.Tables.{IsTable};
ghost use Rattle.rulebook_order.specs.NoWorseBy.{IsVerdictBy};
ghost use Rattle.command_outcome.specs.Ends.{Serves, shelf};
ghost use Rattle.rulebook_commands.specs.Compare.{AddsLines, AreNamed, IsCompareText, IsPairLine};
ghost use Rattle.bound_scene.specs.Inputs.{rule_name};
ghost use Rattle.rulebook_commands.specs.Compare.{compare_task, verdict_text};
ghost use Rattle.rulebook_order.specs.Pairs.{later_pairs};

use bound_scene::load_book_and_table;
use command_outcome::Stop;
use outside_io::Store;
use preorder::{Preorder, Row};
use rule_language::{Book, Rule};
use rulebook_order::{Verdict, compare};
use std::alloc::{AllocError, Global};
use text_lines::push_word;

// Appends a space and the name of a rule.
fn push_rule(out: &mut Vec<u8>, rules: &[Rule], rule: usize) -> Result<(), AllocError>
    requires { rule < length rules.now }
    ensures { OnOk result (out.new.items ≡ out.old.items ++ word (rule_name rules.now rule)) }
{
    push_word(out, rules[rule].name.as_slice())
}

/// Appends a verdict with the names of its rules.
pub fn push_verdict(out: &mut Vec<u8>, rules: &[Rule], verdict: Verdict) -> Result<(), AllocError>
    requires { AreNamed (length rules.now) verdict }
    ensures { OnOk result (out.new.items ≡ out.old.items ++ verdict_text rules.now verdict) }
{
    match verdict {
        Verdict::Equal => push_word(out, b"equal"),
        Verdict::First(rule) => {
            push_word(out, b"first")?;
            push_rule(out, rules, rule)
        }
        Verdict::Second(rule) => {
            push_word(out, b"second")?;
            push_rule(out, rules, rule)
        }
        Verdict::Neither(first, second) => {
            push_word(out, b"neither")?;
            push_rule(out, rules, first)?;
            push_rule(out, rules, second)
        }
    }
}

// Appends the line of a pair of rows.
fn push_pair(
    out: &mut Vec<u8>,
    order: &Preorder,
    rules: &[Rule],
    first: &Row,
    second: &Row,
) -> Result<(), AllocError>
    requires rules { rules_of order.now ≡ length rules.now }
    requires first { length first.now.values ≡ length rules.now }
    requires second { length second.now.values ≡ length rules.now }
    ensures { OnOk result (AddsLines (IsPairLine (IsVerdictBy order.now) rules.now)
        ((first.now, second.now) ∷ []) out.old.items out.new.items) }
{
    let verdict = compare(order, first.values.as_slice(), second.values.as_slice());
    out.extend_from_slice(first.name.as_slice())?;
    push_word(out, second.name.as_slice())?;
    push_verdict(out, rules, verdict)?;
    out.push(b'\n')?;
    Ok(())
}

// Appends the lines of a row against others.
fn push_against(
    out: &mut Vec<u8>,
    order: &Preorder,
    rules: &[Rule],
    first: &Row,
    others: &[Row],
) -> Result<(), AllocError>
    requires rules { rules_of order.now ≡ length rules.now }
    requires first { length first.now.values ≡ length rules.now }
    requires others { All (λ row. length row.values ≡ length rules.now) others.now }
    ensures { OnOk result (AddsLines (IsPairLine (IsVerdictBy order.now) rules.now)
        (map (λ other. (first.now, other)) others.now) out.old.items out.new.items) }
{
    for other in others {
        push_pair(out, order, rules, first, other)?;
    }
    Ok(())
}

// The lines of each row against each later one.
fn compare_text(alloc: Global, book: &Book, rows: &[Row]) -> Result<Vec<u8>, AllocError>
    requires book { IsBook book.now }
    requires rows { IsTable (length book.now.rules) rows.now }
    ensures { IfOk result (λ text. IsCompareText book.now rows.now text.items) }
{
    let order = book.order();
    let mut text = Vec::new(alloc);
    let mut rest = rows;
    while let [first, others @ ..] = rest {
        push_against(&mut text, &order, book.rules.as_slice(), first, others)?;
        rest = others;
    }
    Ok(text)
}

/// What `compare BOOK TABLE` writes.
pub fn compare_rows<S: Store>(
    alloc: Global,
    store: &mut S,
    book: &str,
    table: &str,
) -> Result<Vec<u8>, Stop>
    ensures { Serves (compare_task book.now table.now)
        (shelf S.held S.faults S.failed store.old)
        (shelf S.held S.faults S.failed store.new) result }
{
    let (book, table) = load_book_and_table(alloc, store, book, table)?;
    let text = compare_text(alloc, &book, table.rows.as_slice())?;
    Ok(text)
}
