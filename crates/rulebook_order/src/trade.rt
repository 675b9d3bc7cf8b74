ghost use Rattle.std.specs.Prelude.{IsTrue};
ghost use Rattle.preorder.specs.Preorder.{rules_of};
ghost use Rattle.rulebook_order.specs.NoWorseBy.{no_worse_by};
ghost use Rattle.rulebook_order.specs.Trade.{IsTradeOff};

use preorder::Preorder;

/// Whether there are two rules, with neither above the other.
pub fn are_two_apart(order: &Preorder) -> bool
    ensures { IsTrue result → IsTradeOff (rules_of order.now) (no_worse_by order.now) }
{
    if order.len() != 2 || order.above(0, 1) {
        return false;
    }
    !order.above(1, 0)
}
