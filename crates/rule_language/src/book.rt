ghost use Rattle.std.specs.Prelude.{◌≡◌, ℕ, ◌<◌, List, length, map, Ok, IfOk, IfErr, OnErr, IfSome};
ghost use Rattle.std.specs.Bool.{OnFalse};
ghost use Rattle.std.specs.Str.{bytes_eq};
ghost use Rattle.preorder.specs.Preorder.{rules_of, at_least};
ghost use Rattle.preorder.specs.Statements.{IsClosure};
ghost use Rattle.reading.specs.Lines.{lines_of};
ghost use Rattle.reading.specs.Reading.{Gives, IsFirstFault};
ghost use Rattle.reading.specs.Words.{number_of};
ghost use Rattle.expressions.specs.Reading.{expr_of};
ghost use Rattle.rule_language.specs.Books.{is_memory, is_of_file, place_of, rule_line, named_rule};
ghost use Rattle.rule_language.specs.Books.{pair, above_line, same_line, weight_from, or_syntax};
ghost use Rattle.rule_language.specs.Books.{part_of, add_part, part_line, pair_line, book_words};
ghost use Rattle.rule_language.specs.Books.{book_line, no_lines, book_of, IsBook, AnyBook};
ghost use Rattle.rule_language.specs.Books.{IsHalfPair, IsHalfLine};
ghost use Rattle.rule_language.specs.LineFiles.{Leaves};
ghost use Rattle.rule_language.specs.declared.book.BookFault.TheVariants as faults;

use crate::limits::{MAX_PARTS, MAX_WEIGHT};
use crate::line_file::{LineReader, read_all};
use crate::named::Named;
use crate::part::{Part, line_fits, without_zeros};
use expressions::{Expr, ExprFault, read_spelled};
use preorder::{List, MAX_RULES, Name, NoMemory, Preorder, PreorderFault};
use reading::number_in;
use std::alloc::Global;

/// A rule of a book. One without parts is bare.
#[derive(Drop)]
pub struct Rule {
    /// No other rule of its book has it.
    pub name: Name,
    /// At most `MAX_PARTS`, whose values are added up.
    pub parts: List<Part>,
}

/// A rulebook: its rules, and the statements on them. A statement `(a, b)` says that the rule at
/// place `a` is at least the rule at place `b`, counted from 0.
#[derive(Drop)]
pub struct Book {
    /// 1 to `MAX_RULES`, in the order of their lines.
    pub rules: List<Rule>,
    /// In the order of their lines; each is on places of rules.
    pub statements: List<(usize, usize)>,
}

/// Why bytes are no book. A number is that of the first faulty line, counted from 1. Of the faults
/// of a line, the one that stands first here is named.
#[derive(Clone, Copy, Debug, PartialEq, Eq)]
pub enum BookFault {
    /// The bytes are not UTF-8.
    NotUtf8,
    /// The line has not the form of one of a book, or more than `MAX_LINE` bytes, or its part does
    /// not fit its written line (`written_fits`).
    Syntax(usize),
    /// A name is that of no rule of an earlier line.
    UnknownName(usize),
    /// A rule of an earlier line has the name.
    DuplicateName(usize),
    /// The weight is 0 or over `MAX_WEIGHT`.
    BadWeight(usize),
    /// There are `MAX_RULES` rules before the line.
    TooManyRules(usize),
    /// The rule has `MAX_PARTS` parts before the line.
    TooManyParts(usize),
    /// No line has a fault, and there is no rule.
    NoRules,
    /// Memory could not be had.
    NoMemory,
}

impl From<NoMemory> for BookFault {
    ghost from_gives = { λ _ e. e ≡ faults.NoMemory };

    fn from(_e: NoMemory) -> BookFault {
        BookFault::NoMemory
    }
}

#[tactic(auto, unfolding(crate::specs::Books::place_of))]
fn place_of(rules: &[Rule], name: &[u8]) -> Option<usize>
    ensures inside { IfSome result (λ i. i < length rules.now) }
    ensures exact { result ≡ place_of name.now rules.now }
{
    rules.iter().position(|rule| rule.is_named(name))
}

// The place of a rule of an earlier line.
#[tactic(auto, unfolding(crate::specs::Books::named_rule))]
fn named_rule(number: usize, rules: &[Rule], name: &[u8]) -> Result<usize, BookFault>
    ensures inside { IfOk result (λ i. i < length rules.now) }
    ensures exact { Gives is_memory (λ i. i) result (named_rule number name.now rules.now) }
{
    match place_of(rules, name) {
        Some(place) => Ok(place),
        None => Err(BookFault::UnknownName(number)),
    }
}

// The places of two rules of earlier lines.
#[tactic(auto, unfolding(crate::specs::Books::pair))]
fn pair_of(number: usize, rules: &[Rule], a: &[u8], b: &[u8]) -> Result<(usize, usize), BookFault>
    ensures { Gives is_memory (λ p. p) result (pair number a.now b.now rules.now) }
{
    if Name::new(a).is_none() || Name::new(b).is_none() {
        return Err(BookFault::Syntax(number));
    }
    let upper = named_rule(number, rules, a)?;
    let lower = named_rule(number, rules, b)?;
    Ok((upper, lower))
}

fn weight_of(number: usize, weight: &[u8]) -> Result<u64, BookFault>
    ensures { Gives is_memory (λ w. w) result (weight_from number (number_of weight.now)) }
{
    match number_in(weight) {
        Some(weight) => Ok(weight),
        None => Err(BookFault::Syntax(number)),
    }
}

fn expr_of(alloc: Global, number: usize, words: &[&[u8]]) -> Result<Expr, BookFault>
    ensures { Gives is_memory (λ e. e) result (or_syntax number
        (expr_of (map (λ w. w.now) words.now))) }
{
    match read_spelled(alloc, words) {
        Ok(expr) => Ok(expr),
        Err(ExprFault::Syntax) => Err(BookFault::Syntax(number)),
        Err(ExprFault::NoMemory) => Err(BookFault::NoMemory),
    }
}

/// The part of a line, by its words after the kind. `number` is that of the line. `Syntax` where
/// the name or the weight has not its form, the words of the expression spell none, or the part
/// does not fit its written line.
#[tactic(auto, unfolding(crate::specs::Books::part_of))]
pub fn part_of(
    alloc: Global,
    number: usize,
    at_end: bool,
    name: &[u8],
    weight: &[u8],
    expr: &[&[u8]],
) -> Result<Part, BookFault>
    ensures { Gives is_memory (λ p. p) result (part_of number at_end name.now weight.now
        (map (λ w. w.now) expr.now)) }
{
    let Some(rule) = Name::new(name) else {
        return Err(BookFault::Syntax(number));
    };
    let value = weight_of(number, weight)?;
    let expr = expr_of(alloc, number, expr)?;
    if !line_fits(at_end, &rule, without_zeros(weight).len(), &expr) {
        return Err(BookFault::Syntax(number));
    }
    Ok(Part {
        weight: value,
        expr,
        at_end,
    })
}

impl Book {
    /// The pre-order of the statements.
    pub fn order(&self) -> Preorder
        requires { IsBook self.now }
        ensures size { rules_of result ≡ length self.now.rules }
        ensures closure { IsClosure self.now.statements (length self.now.rules) (at_least result) }
    {
        match Preorder::from_statements(self.rules.as_slice().len(), self.statements.as_slice()) {
            Ok(order) => order,
            Err(PreorderFault::OutOfRange(_)) => unreachable!(),
        }
    }

    #[tactic(auto, unfolding(crate::specs::Books::rule_line))]
    fn add_rule(&mut self, alloc: Global, number: usize, name: &[u8]) -> Result<(), BookFault>
        ensures exact { Gives is_memory (λ _. self.new) result (rule_line number name.now self.old) }
        ensures left { OnErr result (self.new ≡ self.old) }
    {
        let Some(new) = Name::new(name) else {
            return Err(BookFault::Syntax(number));
        };
        if place_of(self.rules.as_slice(), name).is_some() {
            return Err(BookFault::DuplicateName(number));
        }
        if self.rules.as_slice().len() >= MAX_RULES {
            return Err(BookFault::TooManyRules(number));
        }
        self.rules.push(Rule {
            name: new,
            parts: List::new(alloc),
        })?;
        Ok(())
    }

    #[tactic(auto, unfolding(crate::specs::Books::add_part))]
    fn add_part(&mut self, number: usize, place: usize, part: Part) -> Result<(), BookFault>
        requires { place < length self.old.rules }
        ensures exact { Gives is_memory (λ _. self.new) result (add_part number place part self.old) }
        ensures left { OnErr result (self.new ≡ self.old) }
    {
        if part.weight < 1 || part.weight > MAX_WEIGHT {
            return Err(BookFault::BadWeight(number));
        }
        let parts = &mut self.rules.at_mut(place).parts;
        if parts.as_slice().len() >= MAX_PARTS {
            return Err(BookFault::TooManyParts(number));
        }
        parts.push(part)?;
        Ok(())
    }

    #[tactic(auto, unfolding(crate::specs::Books::part_line))]
    fn add_line(
        &mut self,
        alloc: Global,
        number: usize,
        at_end: bool,
        name: &[u8],
        weight: &[u8],
        expr: &[&[u8]],
    ) -> Result<(), BookFault>
        ensures exact { Gives is_memory (λ _. self.new) result
            (part_line number at_end name.now weight.now (map (λ w. w.now) expr.now) self.old) }
        ensures left { OnErr result (self.new ≡ self.old) }
    {
        let part = part_of(alloc, number, at_end, name, weight, expr)?;
        let place = named_rule(number, self.rules.as_slice(), name)?;
        self.add_part(number, place, part)
    }

    /// Adds the statements of a line of this kind, `above` or `same`, on the rules of two names.
    /// `number` is that of the line. A refused line leaves the book as it was; where memory ends
    /// between the two statements of `same`, the first of them stands.
    #[tactic(auto, unfolding(crate::specs::Books::pair_line))]
    pub fn add_pair(
        &mut self,
        number: usize,
        kind: &[u8],
        a: &[u8],
        b: &[u8],
    ) -> Result<(), BookFault>
        ensures exact { Gives is_memory (λ _. self.new) result
            (pair_line number kind.now a.now b.now self.old) }
        ensures left { IfErr result (Leaves is_memory
            (IsHalfPair number kind.now a.now b.now self.old) self.old self.new) }
    {
        if kind == b"above".as_slice() {
            self.add_above(number, a, b)
        } else if kind == b"same".as_slice() {
            self.add_same(number, a, b)
        } else {
            Err(BookFault::Syntax(number))
        }
    }

    #[tactic(auto, unfolding(crate::specs::Books::above_line))]
    fn add_above(&mut self, number: usize, a: &[u8], b: &[u8]) -> Result<(), BookFault>
        ensures exact { Gives is_memory (λ _. self.new) result (above_line number a.now b.now self.old) }
        ensures left { OnErr result (self.new ≡ self.old) }
    {
        let pair = pair_of(number, self.rules.as_slice(), a, b)?;
        self.statements.push(pair)?;
        Ok(())
    }

    #[tactic(auto, unfolding(crate::specs::Books::same_line, crate::specs::Books::above_line))]
    fn add_same(&mut self, number: usize, a: &[u8], b: &[u8]) -> Result<(), BookFault>
        ensures exact { Gives is_memory (λ _. self.new) result (same_line number a.now b.now self.old) }
        ensures left { IfErr result (Leaves is_memory
            (λ new. above_line number a.now b.now self.old ≡ Ok new) self.old self.new) }
    {
        let (upper, lower) = pair_of(number, self.rules.as_slice(), a, b)?;
        self.statements.push((upper, lower))?;
        self.statements.push((lower, upper))?;
        Ok(())
    }
}

impl LineReader for Book {
    type Fault = BookFault;

    ghost is_free = { is_memory };

    ghost too_long = { faults.Syntax };

    ghost is_sound = { AnyBook };

    ghost step = { book_words };

    ghost is_half = { IsHalfLine };

    fn too_long(number: usize) -> BookFault {
        BookFault::Syntax(number)
    }

    fn no_memory() -> BookFault {
        BookFault::NoMemory
    }

    #[tactic(auto, unfolding(crate::specs::Books::book_words))]
    fn read_words(
        &mut self,
        alloc: Global,
        number: usize,
        words: &[&[u8]],
    ) -> Result<(), BookFault> {
        match words {
            [kind, name] if *kind == b"rule".as_slice() => self.add_rule(alloc, number, name),
            [kind, a, b] => self.add_pair(number, kind, a, b),
            [kind, name, weight, _word, _others @ ..] if *kind == b"part".as_slice() => {
                self.add_line(alloc, number, false, name, weight, &words[3..])
            }
            [kind, name, weight, _word, _others @ ..] if *kind == b"final".as_slice() => {
                self.add_line(alloc, number, true, name, weight, &words[3..])
            }
            _ => Err(BookFault::Syntax(number)),
        }
    }
}

#[tactic(auto, unfolding(crate::specs::Books::book_of), using(crate::proofs::Utf8::utf8_tests))]
fn book_of(alloc: Global, bytes: &[u8]) -> Result<Book, BookFault>
    ensures exact { Gives is_memory (λ book. book) result (book_of bytes.now) }

    // A line's fault is that of the first faulty line: all lines before it were read.
    ensures first_fault { IfErr result (λ fault. OnFalse (is_of_file fault)
        (IsFirstFault book_line 1 (lines_of bytes.now) no_lines fault)) }
{
    if std::str::from_utf8(bytes).is_err() {
        return Err(BookFault::NotUtf8);
    }
    let mut book = Book {
        rules: List::new(alloc),
        statements: List::new(alloc),
    };
    read_all(&mut book, alloc, bytes)?;
    if book.rules.as_slice().is_empty() {
        return Err(BookFault::NoRules);
    }
    Ok(book)
}

/// The book of a file's bytes, or the first fault.
pub fn read_book(alloc: Global, bytes: &[u8]) -> Result<Book, BookFault>
    ensures exact { Gives is_memory (λ book. book) result (book_of bytes.now) }
    ensures well_formed { IfOk result IsBook }

    // A line's fault is that of the first faulty line: all lines before it were read.
    ensures first_fault { IfErr result (λ fault. OnFalse (is_of_file fault)
        (IsFirstFault book_line 1 (lines_of bytes.now) no_lines fault)) }
{
    book_of(alloc, bytes)
}
