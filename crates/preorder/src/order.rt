ghost use Rattle.std.specs.Prelude.{◌≡◌, ℕ, ◌<◌, ◌≤◌, ◌&&◌, ◌||◌, ◌==◌, nat_lt, length, All, IfOk};
ghost use Rattle.std.specs.Prelude.{IfErr, OnOk};
ghost use Rattle.std.specs.Int.{bit_at};
ghost use Rattle.preorder.specs.Relation.{related, IsPreorder};
ghost use Rattle.preorder.specs.Statements.{IsClosure, InRange};
ghost use Rattle.preorder.specs.declared.limits.TheConstants.{MAX_RULES};

use crate::limits::MAX_RULES;

/// A pre-order of rules: a reflexive and transitive relation on the numbers below its size, which
/// is at most `MAX_RULES`.
#[derive(Clone, Copy)]
pub struct Preorder {
    size: usize,
    rows: [u32; MAX_RULES],
    pub ghost fits: { size ≤ MAX_RULES },
    pub ghost closed: { IsPreorder size (related rows) },
}

/// Why statements are no statements on so many rules.
#[derive(Clone, Copy, Debug, PartialEq, Eq)]
pub enum PreorderFault {
    /// The pair at this place, counted from 0, is the first with a number that is no rule's.
    OutOfRange(usize),
}

fn is_bit_set(row: u32, bit: usize) -> bool
    requires { bit < MAX_RULES }
    ensures { result ≡ (bit_at row bit == 1) }
{
    row >> bit & 1 == 1
}

// Each number below `size` is at least itself.
fn identity(size: usize) -> [u32; MAX_RULES]
    requires { size ≤ MAX_RULES }
    ensures rows { length result ≡ MAX_RULES }
    ensures related { (a b : ℕ) → related result a b ≡ (nat_lt a size && a == b) }
{
    let mut rows = [0; MAX_RULES];
    for a in 0..size {
        rows[a] = 1 << a;
    }
    rows
}

// States that `upper` is at least `lower`.
fn state(rows: &mut [u32], upper: usize, lower: usize)
    requires upper { upper < MAX_RULES }
    requires lower { lower < length rows.old }
    ensures { (a b : ℕ) → related rows.new a b
        ≡ (related rows.old a b || (related rows.old a upper && related rows.old lower b)) }
{
    let below = rows[lower];
    for a in 0..rows.len() {
        if is_bit_set(rows[a], upper) {
            rows[a] |= below;
        }
    }
}

impl Preorder {
    ghost use Rattle.preorder.specs.Preorder.{rules_of, at_least, above, same, IsFaultOf};

    /// The smallest reflexive and transitive relation on the numbers below `n` that holds the
    /// pairs.
    /// A pair `(u, l)` states that `u` is at least `l`. There are at most `MAX_RULES` rules.
    /// `OutOfRange` where a pair has a number that is not below `n`.
    pub fn from_statements(n: usize, pairs: &[(usize, usize)]) -> Result<Preorder, PreorderFault>
        requires { n ≤ MAX_RULES }
        ensures size { IfOk result (λ order. rules_of order ≡ n) }
        ensures closure { IfOk result (λ order. IsClosure pairs.now n (at_least order)) }
        ensures in_range { OnOk result (All (InRange n) pairs.now) }
        ensures fault { IfErr result (IsFaultOf n pairs.now) }
    {
        let mut rows = identity(n);
        for (i, &(upper, lower)) in pairs.iter().enumerate() {
            if upper >= n || lower >= n {
                return Err(PreorderFault::OutOfRange(i));
            }
            state(&mut rows, upper, lower);
        }
        Ok(Preorder { size: n, rows })
    }

    /// How many rules it orders, at most `MAX_RULES`.
    pub fn len(&self) -> usize
        ensures fits { result ≤ MAX_RULES }
        ensures value { result ≡ rules_of self.now }
    {
        self.size
    }

    /// Whether `a` is at least `b`: they are equal, or a chain of statements leads from `a` to `b`.
    pub fn at_least(&self, a: usize, b: usize) -> bool
        requires a { a < rules_of self.now }
        requires b { b < rules_of self.now }
        ensures { result ≡ at_least self.now a b }
    {
        is_bit_set(self.rows[a], b)
    }

    /// Whether `a` is at least `b`, and `b` is not at least `a`.
    pub fn above(&self, a: usize, b: usize) -> bool
        requires a { a < rules_of self.now }
        requires b { b < rules_of self.now }
        ensures { result ≡ above self.now a b }
    {
        self.at_least(a, b) && !self.at_least(b, a)
    }

    /// Whether each is at least the other.
    pub fn same(&self, a: usize, b: usize) -> bool
        requires a { a < rules_of self.now }
        requires b { b < rules_of self.now }
        ensures { result ≡ same self.now a b }
    {
        self.at_least(a, b) && self.at_least(b, a)
    }
}
