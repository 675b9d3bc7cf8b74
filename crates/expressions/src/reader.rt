ghost use Rattle.std.specs.Prelude.{◌≡◌, ◌↔◌, ℕ, ◌<◌, ◌≤◌, List, length, map, option_map, IfOk};
ghost use Rattle.std.specs.Prelude.{IfErr, IfSome, IsTrue};
ghost use Rattle.std.specs.Bool.{OnFalse};
ghost use Rattle.std.specs.Str.{bytes_eq};
ghost use Rattle.reading.specs.Reading.{Gives};
ghost use Rattle.expressions.specs.Tokens.{is_memory};
ghost use Rattle.expressions.specs.Grammar.{is_reserved, IsSpelled, IsTextOf};
ghost use Rattle.expressions.specs.Reading.{after_comma, after_close, after_times, after_sign};
ghost use Rattle.expressions.specs.Reading.{constant, divided, asked, feature_in, argument, last};
ghost use Rattle.expressions.specs.Reading.{absolute, least, greatest, choice, quotient, called};
ghost use Rattle.expressions.specs.Reading.{named, factor_at, term_at, expr_at, inside, joined};
ghost use Rattle.expressions.specs.Reading.{tree_of, expr_of};
ghost use Rattle.expressions.specs.Rules.{Reads};
ghost use Rattle.expressions.specs.Written.{is_well_formed};
ghost use Rattle.expressions.specs.declared.tree.Expr.{Expr};

use crate::fault::ExprFault;
use crate::limits::{MAX_ARGUMENT_DIGITS, MAX_BRACKETS, MAX_CONSTANT, MAX_DIVISOR, MAX_LINE};
use crate::token::{Token, tokens_of};
use crate::tree::{Argument, Expr};
use preorder::Name;
use reading::words_of;
use sqlite_items::Boxed;
use std::alloc::{AllocError, Global};

#[tactic(auto, unfolding(crate::specs::Reading::after_comma))]
fn after_comma(tokens: &[Token]) -> Result<&[Token], ExprFault>
    ensures exact { Gives is_memory (λ x. x.now) result (after_comma tokens.now) }
    ensures shorter { IfOk result (λ x. length x.now < length tokens.now) }
{
    match tokens {
        [Token::Comma, after @ ..] => Ok(after),
        _ => Err(ExprFault::Syntax),
    }
}

#[tactic(auto, unfolding(crate::specs::Reading::after_close))]
fn after_close(tokens: &[Token]) -> Result<&[Token], ExprFault>
    ensures exact { Gives is_memory (λ x. x.now) result (after_close tokens.now) }
    ensures shorter { IfOk result (λ x. length x.now < length tokens.now) }
{
    match tokens {
        [Token::Close, after @ ..] => Ok(after),
        _ => Err(ExprFault::Syntax),
    }
}

#[tactic(auto, unfolding(crate::specs::Reading::after_times))]
fn after_times(tokens: &[Token]) -> Option<&[Token]>
    ensures exact { option_map (λ x. x.now) result ≡ after_times tokens.now }
    ensures shorter { IfSome result (λ x. length x.now < length tokens.now) }
{
    match tokens {
        [Token::Times, after @ ..] => Some(after),
        _ => None,
    }
}

#[tactic(auto, unfolding(crate::specs::Reading::after_sign))]
fn after_sign(tokens: &[Token]) -> Option<(Token, &[Token])>
    ensures exact { option_map (λ x. (x.0, x.1.now)) result ≡ after_sign tokens.now }
    ensures shorter { IfSome result (λ x. length x.1.now < length tokens.now) }
{
    match tokens {
        [Token::Plus, after @ ..] => Some((Token::Plus, after)),
        [Token::Minus, after @ ..] => Some((Token::Minus, after)),
        _ => None,
    }
}

#[tactic(auto, unfolding(crate::specs::Reading::constant))]
fn constant(value: u64, tokens: &[Token]) -> Result<(Expr, &[Token]), ExprFault>
    ensures exact { Gives is_memory (λ x. (x.0, x.1.now)) result (constant value tokens.now) }
    ensures rest { IfOk result (λ x. length x.1.now ≡ length tokens.now) }
{
    if value > MAX_CONSTANT {
        return Err(ExprFault::Syntax);
    }
    Ok((Expr::Const(value as i64), tokens))
}

// The expression divided by what stands before the closing bracket.
#[tactic(auto, unfolding(crate::specs::Reading::divided))]
fn divided(alloc: Global, dividend: Expr, tokens: &[Token]) -> Result<(Expr, &[Token]), ExprFault>
    ensures exact { Gives is_memory (λ x. (x.0, x.1.now)) result (divided dividend tokens.now) }
    ensures shorter { IfOk result (λ x. length x.1.now < length tokens.now) }
{
    match tokens {
        [Token::Digits(value, _), Token::Close, after @ ..]
            if 1 <= *value && *value <= MAX_DIVISOR => {
            let divisor = *value as i64;
            Ok((Expr::Div(Boxed::new(alloc, dividend)?, divisor), after))
        }
        _ => Err(ExprFault::Syntax),
    }
}

// The feature of what stands before the closing bracket.
#[tactic(auto, unfolding(crate::specs::Reading::asked))]
fn asked(name: Name, tokens: &[Token]) -> Result<(Expr, &[Token]), ExprFault>
    ensures exact { Gives is_memory (λ x. (x.0, x.1.now)) result (asked name tokens.now) }
    ensures shorter { IfOk result (λ x. length x.1.now < length tokens.now) }
{
    match tokens {
        [Token::Word(about), Token::Close, after @ ..] => {
            Ok((Expr::Feature(name, Some(Argument::Named(*about))), after))
        }
        [Token::Digits(value, count), Token::Close, after @ ..] if *count <= MAX_ARGUMENT_DIGITS =>
            { Ok((Expr::Feature(name, Some(Argument::Number(*value))), after)) }
        _ => Err(ExprFault::Syntax),
    }
}

#[tactic(auto, unfolding(crate::specs::Reading::feature_in))]
fn feature_in(depth: usize, name: Name, tokens: &[Token]) -> Result<(Expr, &[Token]), ExprFault>
    ensures exact { Gives is_memory (λ x. (x.0, x.1.now)) result
        (feature_in depth name tokens.now) }
    ensures shorter { IfOk result (λ x. length x.1.now < length tokens.now) }
{
    if depth == 0 {
        return Err(ExprFault::Syntax);
    }
    asked(name, tokens)
}

fn is_reserved(name: &Name) -> bool
    ensures { result ≡ is_reserved name.now }
{
    let name = name.as_slice();
    name == b"abs".as_slice()
        || name == b"min".as_slice()
        || name == b"max".as_slice()
        || name == b"if".as_slice()
        || name == b"div".as_slice()
}

fn boxed(alloc: Global, a: Expr, b: Expr) -> Result<(Boxed<Expr>, Boxed<Expr>), AllocError>
    ensures { IfOk result (λ x. x ≡ (a, b)) }
{
    Ok((Boxed::new(alloc, a)?, Boxed::new(alloc, b)?))
}

fn multiplied(alloc: Global, a: Expr, b: Expr) -> Result<Expr, AllocError>
    ensures { IfOk result (λ e. e ≡ Expr.Mul a b) }
{
    let (a, b) = boxed(alloc, a, b)?;
    Ok(Expr::Mul(a, b))
}

// The sum, or with a minus the difference.
fn joined(alloc: Global, sign: Token, a: Expr, b: Expr) -> Result<Expr, AllocError>
    ensures { IfOk result (λ e. e ≡ joined sign a b) }
{
    let (a, b) = boxed(alloc, a, b)?;
    match sign {
        Token::Minus => Ok(Expr::Sub(a, b)),
        _ => Ok(Expr::Add(a, b)),
    }
}

// How expressions are read where so many brackets may be opened. The rules take the reader of an
// expression behind a bracket as a parameter, so that each is proved by itself.
#[derive(Clone, Copy)]
pub struct Rules<F> {
    alloc: Global,
    depth: usize,
    inside: F,
}

impl<F: Fn(Global, usize, &[Token]) -> Result<(Expr, &[Token]), ExprFault>> Rules<F> {
    // An expression behind a bracket.
    fn inside<'a>(&self, tokens: &'a [Token]) -> Result<(Expr, &'a [Token]), ExprFault>
        requires { Reads self.now.depth (F.pre self.now.inside) (F.post self.now.inside) }
        ensures exact { Gives is_memory (λ x. (x.0, x.1.now)) result
            (inside self.now.depth tokens.now) }
        ensures shorter { IfOk result (λ x. length x.1.now < length tokens.now) }
    {
        (self.inside)(self.alloc, self.depth, tokens)
    }

    // An expression and a comma.
    #[tactic(auto, unfolding(crate::specs::Reading::argument))]
    fn argument<'a>(&self, tokens: &'a [Token]) -> Result<(Expr, &'a [Token]), ExprFault>
        requires { Reads self.now.depth (F.pre self.now.inside) (F.post self.now.inside) }
        ensures exact { Gives is_memory (λ x. (x.0, x.1.now)) result
            (argument self.now.depth (inside self.now.depth) tokens.now) }
        ensures shorter { IfOk result (λ x. length x.1.now < length tokens.now) }
    {
        let (expr, rest) = self.inside(tokens)?;
        let after = after_comma(rest)?;
        Ok((expr, after))
    }

    // An expression and the closing bracket.
    #[tactic(auto, unfolding(crate::specs::Reading::last))]
    fn last<'a>(&self, tokens: &'a [Token]) -> Result<(Expr, &'a [Token]), ExprFault>
        requires { Reads self.now.depth (F.pre self.now.inside) (F.post self.now.inside) }
        ensures exact { Gives is_memory (λ x. (x.0, x.1.now)) result
            (last self.now.depth (inside self.now.depth) tokens.now) }
        ensures shorter { IfOk result (λ x. length x.1.now < length tokens.now) }
    {
        let (expr, rest) = self.inside(tokens)?;
        let after = after_close(rest)?;
        Ok((expr, after))
    }

    // Behind `abs (`.
    #[tactic(auto, unfolding(crate::specs::Reading::absolute))]
    fn absolute<'a>(&self, tokens: &'a [Token]) -> Result<(Expr, &'a [Token]), ExprFault>
        requires { Reads self.now.depth (F.pre self.now.inside) (F.post self.now.inside) }
        ensures exact { Gives is_memory (λ x. (x.0, x.1.now)) result
            (absolute self.now.depth (inside self.now.depth) tokens.now) }
        ensures shorter { IfOk result (λ x. length x.1.now < length tokens.now) }
    {
        let (a, rest) = self.last(tokens)?;
        Ok((Expr::Abs(Boxed::new(self.alloc, a)?), rest))
    }

    // Behind `min (`.
    #[tactic(auto, unfolding(crate::specs::Reading::least))]
    fn least<'a>(&self, tokens: &'a [Token]) -> Result<(Expr, &'a [Token]), ExprFault>
        requires { Reads self.now.depth (F.pre self.now.inside) (F.post self.now.inside) }
        ensures exact { Gives is_memory (λ x. (x.0, x.1.now)) result
            (least self.now.depth (inside self.now.depth) tokens.now) }
        ensures shorter { IfOk result (λ x. length x.1.now < length tokens.now) }
    {
        let (a, rest) = self.argument(tokens)?;
        let (b, rest) = self.last(rest)?;
        let (a, b) = boxed(self.alloc, a, b)?;
        Ok((Expr::Min(a, b), rest))
    }

    // Behind `max (`.
    #[tactic(auto, unfolding(crate::specs::Reading::greatest))]
    fn greatest<'a>(&self, tokens: &'a [Token]) -> Result<(Expr, &'a [Token]), ExprFault>
        requires { Reads self.now.depth (F.pre self.now.inside) (F.post self.now.inside) }
        ensures exact { Gives is_memory (λ x. (x.0, x.1.now)) result
            (greatest self.now.depth (inside self.now.depth) tokens.now) }
        ensures shorter { IfOk result (λ x. length x.1.now < length tokens.now) }
    {
        let (a, rest) = self.argument(tokens)?;
        let (b, rest) = self.last(rest)?;
        let (a, b) = boxed(self.alloc, a, b)?;
        Ok((Expr::Max(a, b), rest))
    }

    // Behind `if (`.
    #[tactic(auto, unfolding(crate::specs::Reading::choice))]
    fn choice<'a>(&self, tokens: &'a [Token]) -> Result<(Expr, &'a [Token]), ExprFault>
        requires { Reads self.now.depth (F.pre self.now.inside) (F.post self.now.inside) }
        ensures exact { Gives is_memory (λ x. (x.0, x.1.now)) result
            (choice self.now.depth (inside self.now.depth) tokens.now) }
        ensures shorter { IfOk result (λ x. length x.1.now < length tokens.now) }
    {
        let (a, rest) = self.argument(tokens)?;
        let (b, rest) = self.argument(rest)?;
        let (c, rest) = self.last(rest)?;
        let (a, b) = boxed(self.alloc, a, b)?;
        Ok((Expr::If(a, b, Boxed::new(self.alloc, c)?), rest))
    }

    // Behind `div (`.
    #[tactic(auto, unfolding(crate::specs::Reading::quotient))]
    fn quotient<'a>(&self, tokens: &'a [Token]) -> Result<(Expr, &'a [Token]), ExprFault>
        requires { Reads self.now.depth (F.pre self.now.inside) (F.post self.now.inside) }
        ensures exact { Gives is_memory (λ x. (x.0, x.1.now)) result
            (quotient self.now.depth (inside self.now.depth) tokens.now) }
        ensures shorter { IfOk result (λ x. length x.1.now < length tokens.now) }
    {
        let (a, rest) = self.argument(tokens)?;
        divided(self.alloc, a, rest)
    }

    // Behind `name (`.
    #[tactic(auto, unfolding(crate::specs::Reading::called))]
    fn called<'a>(&self, name: Name, tokens: &'a [Token]) -> Result<(Expr, &'a [Token]), ExprFault>
        requires { Reads self.now.depth (F.pre self.now.inside) (F.post self.now.inside) }
        ensures exact { Gives is_memory (λ x. (x.0, x.1.now)) result
            (called self.now.depth (inside self.now.depth) name tokens.now) }
        ensures shorter { IfOk result (λ x. length x.1.now < length tokens.now) }
    {
        let word = name.as_slice();
        if word == b"abs".as_slice() {
            self.absolute(tokens)
        } else if word == b"min".as_slice() {
            self.least(tokens)
        } else if word == b"max".as_slice() {
            self.greatest(tokens)
        } else if word == b"if".as_slice() {
            self.choice(tokens)
        } else if word == b"div".as_slice() {
            self.quotient(tokens)
        } else {
            feature_in(self.depth, name, tokens)
        }
    }

    // Behind a name.
    #[tactic(auto, unfolding(crate::specs::Reading::named))]
    fn named<'a>(&self, name: Name, tokens: &'a [Token]) -> Result<(Expr, &'a [Token]), ExprFault>
        requires { Reads self.now.depth (F.pre self.now.inside) (F.post self.now.inside) }
        ensures exact { Gives is_memory (λ x. (x.0, x.1.now)) result
            (named self.now.depth (inside self.now.depth) name tokens.now) }
        ensures shorter { IfOk result (λ x. length x.1.now ≤ length tokens.now) }
    {
        match tokens {
            [Token::Open, after @ ..] => self.called(name, after),
            _ if is_reserved(&name) => Err(ExprFault::Syntax),
            _ => Ok((Expr::Feature(name, None), tokens)),
        }
    }

    #[tactic(auto, unfolding(crate::specs::Reading::factor_at))]
    fn factor<'a>(&self, tokens: &'a [Token]) -> Result<(Expr, &'a [Token]), ExprFault>
        requires { Reads self.now.depth (F.pre self.now.inside) (F.post self.now.inside) }
        ensures exact { Gives is_memory (λ x. (x.0, x.1.now)) result
            (factor_at self.now.depth (inside self.now.depth) tokens.now) }
        ensures shorter { IfOk result (λ x. length x.1.now < length tokens.now) }
    {
        match tokens {
            [Token::Digits(value, _), after @ ..] => constant(*value, after),
            [Token::Minus, after @ ..] => {
                let (a, rest) = self.factor(after)?;
                Ok((Expr::Neg(Boxed::new(self.alloc, a)?), rest))
            }
            [Token::Open, after @ ..] => self.last(after),
            [Token::Word(name), after @ ..] => self.named(*name, after),
            _ => Err(ExprFault::Syntax),
        }
    }

    // Factors with `*` between them.
    fn term<'a>(&self, tokens: &'a [Token]) -> Result<(Expr, &'a [Token]), ExprFault>
        requires { Reads self.now.depth (F.pre self.now.inside) (F.post self.now.inside) }
        ensures exact { Gives is_memory (λ x. (x.0, x.1.now)) result
            (term_at self.now.depth (inside self.now.depth) tokens.now) }
        ensures shorter { IfOk result (λ x. length x.1.now < length tokens.now) }
    {
        let (mut product, mut rest) = self.factor(tokens)?;
        while let Some(after) = after_times(rest) {
            let (factor, next) = self.factor(after)?;
            product = multiplied(self.alloc, product, factor)?;
            rest = next;
        }
        Ok((product, rest))
    }

    // Terms with `+` and `-` between them.
    fn expr<'a>(&self, tokens: &'a [Token]) -> Result<(Expr, &'a [Token]), ExprFault>
        requires { Reads self.now.depth (F.pre self.now.inside) (F.post self.now.inside) }
        ensures exact { Gives is_memory (λ x. (x.0, x.1.now)) result
            (expr_at self.now.depth (inside self.now.depth) tokens.now) }
        ensures shorter { IfOk result (λ x. length x.1.now < length tokens.now) }
    {
        let (mut sum, mut rest) = self.term(tokens)?;
        while let Some((sign, after)) = after_sign(rest) {
            let (term, next) = self.term(after)?;
            sum = joined(self.alloc, sign, sum, term)?;
            rest = next;
        }
        Ok((sum, rest))
    }
}

// Behind a bracket: an expression with a bracket less.
#[tactic(auto, using(crate::proofs::Depths::inside_more, crate::proofs::Depths::inside_none))]
fn inside(alloc: Global, depth: usize, tokens: &[Token]) -> Result<(Expr, &[Token]), ExprFault>
    ensures exact { Gives is_memory (λ x. (x.0, x.1.now)) result (inside depth tokens.now) }
    ensures shorter { IfOk result (λ x. length x.1.now < length tokens.now) }
{
    if depth == 0 {
        return Err(ExprFault::Syntax);
    }
    let rules = Rules {
        alloc,
        depth: depth - 1,
        inside,
    };
    rules.expr(tokens)
}

// The tree that all tokens have.
#[tactic(auto, unfolding(crate::specs::Reading::tree_of))]
fn tree_of(alloc: Global, tokens: &[Token]) -> Result<Expr, ExprFault>
    ensures { Gives is_memory (λ e. e) result (tree_of tokens.now) }
{
    let rules = Rules {
        alloc,
        depth: MAX_BRACKETS,
        inside,
    };
    match rules.expr(tokens)? {
        (expr, []) => Ok(expr),
        _ => Err(ExprFault::Syntax),
    }
}

#[tactic(auto, unfolding(crate::specs::Reading::expr_of))]
fn expr_of(alloc: Global, words: &[&[u8]]) -> Result<Expr, ExprFault>
    ensures { Gives is_memory (λ e. e) result (expr_of (map (λ w. w.now) words.now)) }
{
    let tokens = tokens_of(alloc, words)?;
    tree_of(alloc, tokens.as_slice())
}

/// The expression whose text these words spell, with blanks between them.
pub fn read_spelled(alloc: Global, words: &[&[u8]]) -> Result<Expr, ExprFault>
    ensures exact { Gives is_memory (λ e. e) result (expr_of (map (λ w. w.now) words.now)) }
    ensures text { IfOk result (IsSpelled (map (λ w. w.now) words.now)) }
    ensures each_text { (e : Expr) → IsSpelled (map (λ w. w.now) words.now) e
        → Gives is_memory (λ x. x) result (Ok e) }
    ensures well_formed { IfOk result (λ e. IsTrue (is_well_formed e)) }
{
    expr_of(alloc, words)
}

/// The expression whose text this is, of at most `MAX_LINE` bytes. `Syntax` where it is the text of
/// none.
pub fn read_expr(alloc: Global, text: &[u8]) -> Result<Expr, ExprFault>
    requires { length text.now ≤ MAX_LINE }

    // What is read has this text.
    ensures text { IfOk result (IsTextOf text.now) }

    // What has this text is read, unless memory runs out.
    ensures each_text { (e : Expr) → IsTextOf text.now e → Gives is_memory (λ x. x) result (Ok e) }

    ensures well_formed { IfOk result (λ e. IsTrue (is_well_formed e)) }

    // A text is refused where no tree has it.
    ensures syntax { IfErr result (λ f. OnFalse (is_memory f)
        ((e : Expr) → ¬ IsTextOf text.now e)) }
{
    let words = words_of(alloc, text)?;
    read_spelled(alloc, words.as_slice())
}

/// What is read of words is the tree whose text they spell by the grammar, and nothing else is
/// read.
pub fn reading_is_the_grammar()
    ensures { (words : List (List ℕ)) (e : Expr) → (expr_of words ≡ Ok e) ↔ IsSpelled words e }
{}

/// No text has two trees.
pub fn one_tree()
    ensures { (text : List ℕ) (a b : Expr) → IsTextOf text a → IsTextOf text b → a ≡ b }
{}
