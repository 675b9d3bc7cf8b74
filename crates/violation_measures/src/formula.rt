use preorder::Name;
use rule_language::Argument;
use sqlite_items::Boxed;

/// An operation on one number.
#[derive(Clone, Copy, Debug, PartialEq, Eq)]
pub enum Unary {
    /// 0 less it.
    Neg,
    /// Its size.
    Abs,
}

/// An operation on two numbers.
#[derive(Clone, Copy, Debug, PartialEq, Eq)]
pub enum Binary {
    /// Their sum.
    Add,
    /// The first less the second.
    Sub,
    /// Their product.
    Mul,
    /// The lesser of them.
    Min,
    /// The greater of them.
    Max,
}

/// An expression as it is worked out at each step: measured features by their places, and no
/// operation on constants alone.
#[derive(Drop)]
pub enum Formula {
    /// A whole number.
    Const(i64),
    /// The feature at the place among those that are measured once a step.
    Measured(usize),
    /// A feature that is found and measured where it stands.
    Asked(Name, Option<Argument>),
    /// An operation on one formula.
    One(Unary, Boxed<Formula>),
    /// An operation on two formulas.
    Two(Binary, Boxed<Formula>, Boxed<Formula>),
    /// The second where the first is above 0, else the third.
    If(Boxed<Formula>, Boxed<Formula>, Boxed<Formula>),
    /// Divided by a whole number of at least 1, cut towards 0.
    Div(Boxed<Formula>, i64),
}
