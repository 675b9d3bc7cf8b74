ghost use Rattle.std.specs.Prelude.{◌≡◌, ◌++◌, ℕ, OnOk, IfOk, map, false};
ghost use Rattle.reading.specs.Reading.{Gives};
ghost use Rattle.rule_language.specs.Books.{IsBook, part_of};
ghost use Rattle.book_operations.specs.Scripts.{is_memory, in_script, refine_line, each_above};
ghost use Rattle.book_operations.specs.Scripts.{augmented, augment_line, refine_words, merge_words};
ghost use Rattle.book_operations.specs.Scripts.{augment_words, script_words};
ghost use Rattle.rule_language.specs.declared.part.Part.{Part};

use crate::factors::is_weight;
use crate::fault::{DeriveFault, line_fault};
use crate::images::place_of;
use crate::kind::Accepted;
use crate::merging::merged;
use preorder::{List, MAX_RULES, Name, NoMemory};
use rule_language::{Book, Part, Rule, copy_book, part_of};
use std::alloc::Global;

/// What a line of a script makes of a book, and the test that it is put to.
#[derive(Drop)]
pub struct Child {
    /// Which test.
    pub kind: Accepted,
    /// The book that it makes.
    pub book: Book,
}

// The child of the line `refine KIND A B`.
#[tactic(auto, unfolding(crate::specs::Scripts::refine_line))]
fn refined(
    alloc: Global,
    number: usize,
    kind: &[u8],
    a: &[u8],
    b: &[u8],
    book: &Book,
) -> Result<Book, DeriveFault>
    ensures { Gives is_memory (λ child. child) result
        (refine_line number kind.now a.now b.now book.now) }
{
    let mut child = copy_book(alloc, book)?;
    match child.add_pair(number, kind, a, b) {
        Ok(()) => Ok(child),
        Err(fault) => Err(line_fault(fault)),
    }
}

// The part of the line `augment NEW WEIGHT EXPR`.
fn new_part(
    alloc: Global,
    number: usize,
    name: &[u8],
    weight: &[u8],
    expr: &[&[u8]],
) -> Result<Part, DeriveFault>
    ensures { Gives is_memory (λ part. part) result
        (in_script (part_of number false name.now weight.now (map (λ w. w.now) expr.now))) }
{
    match part_of(alloc, number, false, name, weight, expr) {
        Ok(part) => Ok(part),
        Err(fault) => Err(line_fault(fault)),
    }
}

// Appends that each rule below the count is at least the new one.
fn push_each_above(
    statements: &mut List<(usize, usize)>,
    new: usize,
    count: usize,
) -> Result<(), NoMemory>
    ensures { OnOk result (statements.new ≡ statements.old ++ each_above new count) }
{
    for rule in 0..count {
        statements.push((rule, new))?;
    }
    Ok(())
}

// The book with a last rule of one part, below each other.
fn with_last(alloc: Global, name: Name, part: Part, book: &Book) -> Result<Book, NoMemory>
    ensures { IfOk result (λ child. child ≡ augmented name part book.now) }
{
    let mut child = copy_book(alloc, book)?;
    let new = book.rules.as_slice().len();
    let mut parts = List::new(alloc);
    parts.push(part)?;
    child.rules.push(Rule { name, parts })?;
    push_each_above(&mut child.statements, new, new)?;
    Ok(child)
}

// The child of the line `augment NEW WEIGHT EXPR`.
#[tactic(auto, unfolding(crate::specs::Scripts::augment_line))]
fn augmented(
    alloc: Global,
    number: usize,
    name: &[u8],
    weight: &[u8],
    expr: &[&[u8]],
    book: &Book,
) -> Result<Book, DeriveFault>
    ensures { Gives is_memory (λ child. child) result
        (augment_line number name.now weight.now (map (λ w. w.now) expr.now) book.now) }
{
    let Some(new) = Name::new(name) else {
        return Err(DeriveFault::Syntax(number));
    };
    let part = new_part(alloc, number, name, weight, expr)?;
    if place_of(book.rules.as_slice(), name).is_some() {
        return Err(DeriveFault::DuplicateName(number));
    }
    if !is_weight(part.weight) {
        return Err(DeriveFault::BadWeight(number));
    }
    if book.rules.as_slice().len() >= MAX_RULES {
        return Err(DeriveFault::TooManyRules(number));
    }
    Ok(with_last(alloc, new, part, book)?)
}

// The child of the line `refine KIND A B`, by its words after the first.
fn refinement(
    alloc: Global,
    number: usize,
    words: &[&[u8]],
    book: &Book,
) -> Result<Child, DeriveFault>
    ensures { Gives is_memory (λ child. child) result
        (refine_words number (map (λ w. w.now) words.now) book.now) }
{
    match words {
        [kind, a, b] => Ok(Child {
            kind: Accepted::Refinement,
            book: refined(alloc, number, kind, a, b, book)?,
        }),
        _ => Err(DeriveFault::Syntax(number)),
    }
}

// The child of the line `merge NEW W1 A1 W2 A2 ..`, by its words after the first.
fn aggregation(
    alloc: Global,
    number: usize,
    words: &[&[u8]],
    book: &Book,
) -> Result<Child, DeriveFault>
    requires { IsBook book.now }
    ensures { Gives is_memory (λ child. child) result
        (merge_words number (map (λ w. w.now) words.now) book.now) }
{
    match words {
        [name, words @ ..] => Ok(Child {
            kind: Accepted::Aggregation,
            book: merged(alloc, number, name, words, book)?,
        }),
        [] => Err(DeriveFault::Syntax(number)),
    }
}

// The child of the line `augment NEW WEIGHT EXPR`, by its words after the first.
fn augmentation(
    alloc: Global,
    number: usize,
    words: &[&[u8]],
    book: &Book,
) -> Result<Child, DeriveFault>
    ensures { Gives is_memory (λ child. child) result
        (augment_words number (map (λ w. w.now) words.now) book.now) }
{
    match words {
        [name, weight, expr @ ..] => Ok(Child {
            kind: Accepted::Augmentation,
            book: augmented(alloc, number, name, weight, expr, book)?,
        }),
        _ => Err(DeriveFault::Syntax(number)),
    }
}

/// The child that a line makes, by its words.
#[tactic(auto, unfolding(crate::specs::Scripts::script_words))]
pub fn child_of(
    alloc: Global,
    number: usize,
    words: &[&[u8]],
    book: &Book,
) -> Result<Child, DeriveFault>
    requires { IsBook book.now }
    ensures { Gives is_memory (λ child. child) result
        (script_words number (map (λ w. w.now) words.now) book.now) }
{
    match words {
        [] => Err(DeriveFault::Syntax(number)),
        [kind, words @ ..] => {
            if *kind == b"refine".as_slice() {
                refinement(alloc, number, words, book)
            } else if *kind == b"merge".as_slice() {
                aggregation(alloc, number, words, book)
            } else if *kind == b"augment".as_slice() {
                augmentation(alloc, number, words, book)
            } else {
                Err(DeriveFault::Syntax(number))
            }
        }
    }
}
