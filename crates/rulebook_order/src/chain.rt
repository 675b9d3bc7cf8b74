ghost use Rattle.std.specs.Prelude.{◌≡◌, ◌↔◌, ◌<◌, ◌≤◌, ◌||◌, List, ℕ, false, length, IfSome, IsNone};
ghost use Rattle.std.specs.Prelude.{IsTrue};
ghost use Rattle.preorder.specs.Preorder.{rules_of, above};
ghost use Rattle.rulebook_order.specs.NoWorseBy.{NoWorseBy, no_worse_by};
ghost use Rattle.rulebook_order.specs.PairOrder.{IsAsPairs};
ghost use Rattle.rulebook_order.specs.Shapes.{AreFromTopDown, HasUnrelated, IsRelatedToAll};
ghost use Rattle.rulebook_order.specs.Shapes.{rules_above};

use crate::pair::PairOrder;
use crate::vector_order::VectorOrder;
use preorder::{MAX_RULES, Preorder};

/// The order of vectors by a pre-order in which of two different rules one is above the other: the
/// first rule from the top down that is not violated alike decides.
#[derive(Clone, Copy)]
pub struct ChainOrder {
    order: Preorder,
    rules: [usize; MAX_RULES],
    pub ghost top_down: { AreFromTopDown order rules },
}

// Whether one of two rules is above the other.
fn is_related(order: &Preorder, one: usize, other: usize) -> bool
    requires one { one < rules_of order.now }
    requires other { other < rules_of order.now }
    ensures { result ≡ (above order.now one other || above order.now other one) }
{
    order.above(one, other) || order.above(other, one)
}

// Whether a rule is above or below each other one.
fn is_related_to_all(order: &Preorder, rule: usize) -> bool
    requires { rule < rules_of order.now }
    ensures related { IsTrue result → IsRelatedToAll order.now rule }
    ensures unrelated { result ≡ false → HasUnrelated order.now }
{
    for other in 0..order.len() {
        if other != rule && !is_related(order, other, rule) {
            return false;
        }
    }
    true
}

// How many rules are above a rule.
fn count_above(order: &Preorder, rule: usize) -> usize
    requires { rule < rules_of order.now }
    ensures value { result ≡ rules_above order.now rule }
    ensures below { result < rules_of order.now }
{
    let mut count = 0;
    for other in 0..order.len() {
        if order.above(other, rule) {
            count += 1;
        }
    }
    count
}

impl ChainOrder {
    ghost use Rattle.rulebook_order.specs.ChainOrder.{order_of};

    /// The order by this pre-order. There is none exactly where two different rules have neither
    /// above the other.
    pub fn new(order: &Preorder) -> Option<ChainOrder>
        ensures none { IsNone result ↔ HasUnrelated order.now }
        ensures order { IfSome result (λ chain. order_of chain ≡ order.now) }
        ensures same { IfSome result (λ chain. IsAsPairs order.now
            ⟦<PairOrder as VectorOrder>⟧.no_worse (⟦<ChainOrder as VectorOrder>⟧.no_worse chain)) }
    {
        let mut rules = [0; MAX_RULES];
        for rule in 0..order.len() {
            if !is_related_to_all(order, rule) {
                return None;
            }
            rules[count_above(order, rule)] = rule;
        }
        Some(ChainOrder {
            order: *order,
            rules,
        })
    }
}

impl VectorOrder for ChainOrder {
    ghost use Rattle.rulebook_order.specs.laws.PairLaws.{no_worse_by-laws};
    ghost use Rattle.rulebook_order.specs.ChainOrder.{order_of};

    ghost rules = { λ chain. rules_of (order_of chain) };

    ghost no_worse = { λ chain. no_worse_by (order_of chain) };

    ghost laws = { λ chain. no_worse_by-laws (order_of chain) };

    fn width(&self) -> usize {
        self.order.len()
    }

    fn no_worse(&self, x: &[u64], y: &[u64]) -> bool
        requires x { length x.now ≡ rules_of (order_of self.now) }
        requires y { length y.now ≡ rules_of (order_of self.now) }
        ensures value { result ≡ no_worse_by (order_of self.now) x.now y.now }
        ensures words { IsTrue result ↔ NoWorseBy (order_of self.now) x.now y.now }
    {
        let rules = &self.rules;
        for place in 0..x.len() {
            let rule = rules[place];
            if x[rule] != y[rule] {
                return x[rule] < y[rule];
            }
        }
        true
    }
}
