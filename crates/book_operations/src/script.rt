ghost use Rattle.std.specs.Prelude.{◌≡◌, ℕ, ◌+◌, ◌<◌, ◌≤◌, Ok, length, IfOk, IfErr, IfSome, OnOk};
ghost use Rattle.std.specs.Prelude.{map};
ghost use Rattle.std.specs.Bool.{OnFalse};
ghost use Rattle.reading.specs.Lines.{lines_of};
ghost use Rattle.reading.specs.Reading.{Gives};
ghost use Rattle.reading.specs.Words.{words};
ghost use Rattle.rule_language.specs.Books.{IsBook, book_of};
ghost use Rattle.rule_language.specs.Writing.{book_text};
ghost use Rattle.book_operations.specs.Scripts.{is_memory, words_child, text_child, multiplier};
ghost use Rattle.book_operations.specs.Scripts.{Leaves, IsLineFault, Derives, IsFirstRefused};
ghost use Rattle.book_operations.specs.Scripts.{IsDerivedBy, IsScriptFault, CarriesThrough};
ghost use Rattle.book_operations.specs.Scripts.{KeepsThrough, KeepsOver};
ghost use Rattle.book_operations.specs.Measures.{IsMeasure, measured};
ghost use Rattle.rule_language.specs.declared.part.Part.{Part};
ghost use Rattle.book_operations.specs.declared.steps.Child.{Child};

use crate::fault::DeriveFault;
use crate::kind::test_kind;
use crate::steps::{Child, child_of};
use expressions::MAX_LINE;
use reading::words_of;
use rule_language::{Book, copy_book, cut_line};
use std::alloc::{AllocError, Global};

// The child that a line makes of the book, by its text without a comment. None where it has no
// word.
fn words_child(
    alloc: Global,
    number: usize,
    text: &[u8],
    book: &Book,
) -> Result<Option<Child>, DeriveFault>
    requires { IsBook book.now }
    ensures exact { Gives is_memory (λ child. child) result
        (words_child number (words text.now) book.now) }
{
    match words_of(alloc, text) {
        Ok(words) if words.is_empty() => Ok(None),
        Ok(words) => Ok(Some(child_of(alloc, number, words.as_slice(), book)?)),
        Err(AllocError) => Err(DeriveFault::NoMemory),
    }
}

// The child that a line makes of the book, by its length with its comment and its text without it.
fn text_child(
    alloc: Global,
    number: usize,
    len: usize,
    text: &[u8],
    book: &Book,
) -> Result<Option<Child>, DeriveFault>
    requires { IsBook book.now }
    ensures exact { Gives is_memory (λ child. child) result
        (text_child number len text.now book.now) }
    ensures sound { IfOk result (λ made. IfSome made (λ (child : Child). IsBook child.book)) }
{
    if len > MAX_LINE {
        return Err(DeriveFault::Syntax(number));
    }
    words_child(alloc, number, text, book)
}

// Puts the child that a line makes in place of the book, once its test accepts it.
fn apply_line(
    book: &mut Book,
    alloc: Global,
    number: usize,
    len: usize,
    text: &[u8],
) -> Result<(), DeriveFault>
    requires { IsBook book.old }
    ensures sound { OnOk result (IsBook book.new) }
    ensures leaves { OnOk result (Leaves book.old
        (text_child number len text.now book.old) book.new) }
    ensures keeps { OnOk result (KeepsOver book.old (multiplier (words text.now))
        (text_child number len text.now book.old) book.new) }
    ensures refuses { IfErr result (λ fault. OnFalse (is_memory fault)
        (IsLineFault book.old (text_child number len text.now book.old) fault)) }
{
    let Some(child) = text_child(alloc, number, len, text, book)? else {
        return Ok(());
    };
    test_kind(alloc, child.kind, book, &child.book)?;
    *book = child.book;
    Ok(())
}

// Applies each line, one after the other.
fn apply_lines(alloc: Global, parent: &Book, script: &[u8]) -> Result<Book, DeriveFault>
    requires { IsBook parent.now }
    ensures well_formed { IfOk result IsBook }
    ensures derives { IfOk result (Derives 1 (lines_of script.now) parent.now) }
    ensures keeps { IfOk result (KeepsThrough 1 (lines_of script.now) parent.now) }
    ensures refuses { IfErr result (λ fault. OnFalse (is_memory fault)
        (IsFirstRefused 1 (lines_of script.now) parent.now fault)) }
{
    let mut book = copy_book(alloc, parent)?;
    let mut rest = script;
    let mut number = 0;
    while let Some((text, after, len)) = cut_line(rest) {
        number += 1;
        apply_line(&mut book, alloc, number, len, text)?;
        rest = after;
    }
    Ok(book)
}

/// The book that a script derives from the parent: each line makes a child of the book before it,
/// and the test of the line must accept it (`refine` is put to `test_refinement`, `merge` to
/// `test_aggregation`, `augment` to `test_augmentation`).
/// Lines, comments and blanks are as in a book.
#[tactic(auto, using(rule_language::proofs::Utf8::utf8_tests))]
pub fn apply_script(alloc: Global, parent: &Book, script: &[u8]) -> Result<Book, DeriveFault>
    requires { IsBook parent.now }

    // Each line makes a child of the book before it, which its test accepts.
    ensures derives { IfOk result (IsDerivedBy script.now parent.now) }

    // What is derived keeps the parent's preferences, through every line.
    ensures keeps { IfOk result (KeepsThrough 1 (lines_of script.now) parent.now) }

    // It is so of whatever is measured of parts in proportion to their weights, as the vectors of
    // trajectories are: what is measured of the derived book carries what is measured of the
    // parent.
    ensures measures { IfOk result (λ book. (amount : Part → ℕ) → IsMeasure amount
        → CarriesThrough 1 (lines_of script.now) parent.now (measured amount parent.now)
        (measured amount book)) }

    ensures well_formed { IfOk result IsBook }

    // The text that it is written as is read as the same book.
    ensures read_again { IfOk result (λ book. book_of (book_text book) ≡ Ok book) }

    // A script is refused for the first fault of its first faulty line. Where that is the test's,
    // its two vectors show a preference of the book before the line that is lost.
    ensures refuses { IfErr result (λ fault. OnFalse (is_memory fault)
        (IsScriptFault script.now parent.now fault)) }
{
    if std::str::from_utf8(script).is_err() {
        return Err(DeriveFault::Syntax(1));
    }
    apply_lines(alloc, parent, script)
}
