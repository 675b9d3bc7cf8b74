ghost use Rattle.std.specs.Prelude.{◌≡◌, ◌↔◌, ◌<◌, List, ℕ, length, IfSome, IsNone, IsTrue};
ghost use Rattle.preorder.specs.Preorder.{rules_of};
ghost use Rattle.rulebook_order.specs.Trade.{IsTradeOff};
ghost use Rattle.rulebook_order.specs.NoWorseBy.{NoWorseBy, no_worse_by};
ghost use Rattle.rulebook_order.specs.PairOrder.{IsAsPairs};
ghost use Rattle.rulebook_order.specs.Shapes.{HasAbove, HasRuleAbove, IsFlat};

use crate::pair::PairOrder;
use crate::trade::are_two_apart;
use crate::vector_order::VectorOrder;
use preorder::Preorder;

/// The order of vectors by a pre-order in which no rule is above another: one vector is no worse
/// than another where no rule is violated more in it.
#[derive(Clone, Copy)]
pub struct ParetoOrder {
    order: Preorder,
    pub ghost flat: { IsFlat order },
}

// Whether some rule is above this one.
fn has_rule_above(order: &Preorder, rule: usize) -> bool
    requires { rule < rules_of order.now }
    ensures { IsTrue result ↔ HasRuleAbove order.now rule }
{
    for other in 0..order.len() {
        if order.above(other, rule) {
            return true;
        }
    }
    false
}

impl ParetoOrder {
    ghost use Rattle.rulebook_order.specs.ParetoOrder.{order_of};

    /// The order by this pre-order. There is none exactly where some rule is above another.
    pub fn new(order: &Preorder) -> Option<ParetoOrder>
        ensures none { IsNone result ↔ HasAbove order.now }
        ensures order { IfSome result (λ pareto. order_of pareto ≡ order.now) }
        ensures same { IfSome result (λ pareto. IsAsPairs order.now
            ⟦<PairOrder as VectorOrder>⟧.no_worse (⟦<ParetoOrder as VectorOrder>⟧.no_worse pareto)) }
    {
        for rule in 0..order.len() {
            if has_rule_above(order, rule) {
                return None;
            }
        }
        Some(ParetoOrder { order: *order })
    }
}

impl VectorOrder for ParetoOrder {
    ghost use Rattle.rulebook_order.specs.laws.PairLaws.{no_worse_by-laws};
    ghost use Rattle.rulebook_order.specs.ParetoOrder.{order_of};

    ghost rules = { λ pareto. rules_of (order_of pareto) };

    ghost no_worse = { λ pareto. no_worse_by (order_of pareto) };

    ghost laws = { λ pareto. no_worse_by-laws (order_of pareto) };

    fn width(&self) -> usize {
        self.order.len()
    }

    fn is_trade_off(&self) -> bool
        ensures { IsTrue result
            → IsTradeOff (rules_of (order_of self.now)) (no_worse_by (order_of self.now)) }
    {
        are_two_apart(&self.order)
    }

    fn no_worse(&self, x: &[u64], y: &[u64]) -> bool
        requires x { length x.now ≡ rules_of (order_of self.now) }
        requires y { length y.now ≡ rules_of (order_of self.now) }
        ensures value { result ≡ no_worse_by (order_of self.now) x.now y.now }
        ensures words { IsTrue result ↔ NoWorseBy (order_of self.now) x.now y.now }
    {
        for rule in 0..x.len() {
            if y[rule] < x[rule] {
                return false;
            }
        }
        true
    }
}
