ghost use Rattle.std.specs.Prelude.{◌≡◌, ◌++◌, ℕ, List, All, length, OnOk, IfOk, IsTrue};
ghost use Rattle.preorder.specs.Name.{is_name};
ghost use Rattle.reading.specs.Words.{words};
ghost use Rattle.rule_language.specs.declared.book.Book.{Book};
ghost use Rattle.rule_language.specs.declared.part.Part.{Part};
ghost use Rattle.std.specs.List.{flat_map};
ghost use Rattle.std.specs.Fmt.{decimal};
ghost use Rattle.preorder.specs.Statements.{InRange};
ghost use Rattle.rule_language.specs.Books.{IsBook, book_words, book_of, add_named};
ghost use Rattle.rule_language.specs.Parts.{kind_of, part_text, IsPart};
ghost use Rattle.rule_language.specs.Writing.{part_line_text, rule_text, statement_text, book_text};

use crate::book::{Book, Rule};
use crate::part::Part;
use expressions::push_expr;
use preorder::{Name, NoMemory};
use std::alloc::{AllocError, Global};

fn push_kind(out: &mut Vec<u8>, at_end: bool) -> Result<(), AllocError>
    ensures { OnOk result (out.new.items ≡ out.old.items ++ kind_of at_end) }
{
    if at_end {
        out.extend_from_slice(b"final")
    } else {
        out.extend_from_slice(b"part")
    }
}

fn push_weight(alloc: Global, out: &mut Vec<u8>, weight: u64) -> Result<(), AllocError>
    ensures { OnOk result (out.new.items ≡ out.old.items ++ decimal weight) }
{
    let digits = weight.to_string(alloc)?;
    out.extend_from_slice(digits.as_bytes())
}

// Appends the line of a part of a rule of this name.
fn push_part(alloc: Global, out: &mut Vec<u8>, name: &Name, part: &Part) -> Result<(), AllocError>
    ensures { OnOk result (out.new.items ≡ out.old.items ++ part_line_text name.now part.now) }
{
    push_kind(out, part.at_end)?;
    out.push(b' ')?;
    out.extend_from_slice(name.as_slice())?;
    out.push(b' ')?;
    push_weight(alloc, out, part.weight)?;
    out.push(b' ')?;
    push_expr(alloc, out, &part.expr)?;
    out.push(b'\n')?;
    Ok(())
}

// Appends the line of a rule and those of its parts.
fn push_rule(alloc: Global, out: &mut Vec<u8>, rule: &Rule) -> Result<(), AllocError>
    ensures { OnOk result (out.new.items ≡ out.old.items ++ rule_text rule.now) }
{
    out.extend_from_slice(b"rule ")?;
    out.extend_from_slice(rule.name.as_slice())?;
    out.push(b'\n')?;
    for part in rule.parts.as_slice() {
        push_part(alloc, out, &rule.name, part)?;
    }
    Ok(())
}

// Appends the line of a statement.
fn push_statement(
    out: &mut Vec<u8>,
    rules: &[Rule],
    statement: (usize, usize),
) -> Result<(), AllocError>
    requires { InRange (length rules.now) statement }
    ensures { OnOk result (out.new.items ≡ out.old.items ++ statement_text rules.now statement) }
{
    out.extend_from_slice(b"above ")?;
    out.extend_from_slice(rules[statement.0].name.as_slice())?;
    out.push(b' ')?;
    out.extend_from_slice(rules[statement.1].name.as_slice())?;
    out.push(b'\n')?;
    Ok(())
}

fn push_rules(alloc: Global, out: &mut Vec<u8>, rules: &[Rule]) -> Result<(), AllocError>
    ensures { OnOk result (out.new.items ≡ out.old.items ++ flat_map rule_text rules.now) }
{
    for rule in rules {
        push_rule(alloc, out, rule)?;
    }
    Ok(())
}

fn push_statements(
    out: &mut Vec<u8>,
    rules: &[Rule],
    statements: &[(usize, usize)],
) -> Result<(), AllocError>
    requires { All (InRange (length rules.now)) statements.now }
    ensures { OnOk result (out.new.items ≡ out.old.items
        ++ flat_map (statement_text rules.now) statements.now) }
{
    for statement in statements {
        push_statement(out, rules, *statement)?;
    }
    Ok(())
}

/// The text that a book is written as: for each rule its line and those of its parts, and then a
/// line for each statement.
pub fn write_book(alloc: Global, book: &Book) -> Result<Vec<u8>, NoMemory>
    requires { IsBook book.now }
    ensures text { IfOk result (λ v. v.items ≡ book_text book.now) }

    // It is read as the same book.
    ensures read_again { IfOk result (λ v. book_of v.items ≡ Ok book.now) }
{
    let mut out = Vec::new(alloc);
    push_rules(alloc, &mut out, book.rules.as_slice())?;
    push_statements(&mut out, book.rules.as_slice(), book.statements.as_slice())?;
    Ok(out)
}

/// The line that a part is written as does to a book what the part does.
pub fn written_part_is_read()
    ensures { (n : ℕ) (name : List ℕ) (part : Part) (book : Book) → IsTrue (is_name name)
        → IsPart name part
        → book_words n (words (part_text part.at_end name (decimal part.weight) part.expr)) book
        ≡ add_named n name part book }
{}

/// The text that a well-formed book is written as is read as that book.
pub fn written_book_is_read()
    ensures { (book : Book) → IsBook book → book_of (book_text book) ≡ Ok book }
{}
