use preorder::Name;
use sqlite_items::Boxed;

/// What a feature is asked about.
#[derive(Clone, Copy)]
pub enum Argument {
    /// A name, as that of a maneuver.
    Named(Name),
    /// A number of at most `MAX_ARGUMENT_DIGITS` digits.
    Number(u64),
}

/// An expression over features. Contracts see the plain tree of its variants.
#[derive(Drop)]
pub enum Expr {
    /// A whole number, from 0 to `MAX_CONSTANT` where it was read.
    Const(i64),
    /// What is measured at a step, by the name of a feature.
    Feature(Name, Option<Argument>),
    /// 0 less it.
    Neg(Boxed<Expr>),
    /// Its size.
    Abs(Boxed<Expr>),
    /// Their sum.
    Add(Boxed<Expr>, Boxed<Expr>),
    /// The first less the second.
    Sub(Boxed<Expr>, Boxed<Expr>),
    /// Their product.
    Mul(Boxed<Expr>, Boxed<Expr>),
    /// The lesser of them.
    Min(Boxed<Expr>, Boxed<Expr>),
    /// The greater of them.
    Max(Boxed<Expr>, Boxed<Expr>),
    /// The second where the first is above 0, else the third.
    If(Boxed<Expr>, Boxed<Expr>, Boxed<Expr>),
    /// Divided by a whole number from 1 to `MAX_DIVISOR`, cut towards 0.
    Div(Boxed<Expr>, i64),
}
