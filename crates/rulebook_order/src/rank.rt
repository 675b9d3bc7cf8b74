ghost use Rattle.std.specs.Prelude.{◌≡◌, ◌↔◌, ◌<◌, ◌≤◌, ◌&&◌, ◌||◌, ◌==◌, ℕ, List, nat_lt, length, IsTrue};
ghost use Rattle.std.specs.Int.{bit_at};
ghost use Rattle.preorder.specs.Preorder.{rules_of, above};
ghost use Rattle.preorder.specs.declared.limits.TheConstants.{MAX_RULES};
ghost use Rattle.rulebook_order.specs.Trade.{IsTradeOff};
ghost use Rattle.rulebook_order.specs.NoWorseBy.{NoWorseBy, no_worse_by, is_loss};
ghost use Rattle.rulebook_order.specs.PairOrder.{IsAsPairs};
ghost use Rattle.rulebook_order.specs.Shapes.{AreWordsAbove};

use crate::pair::PairOrder;
use crate::trade::are_two_apart;
use crate::vector_order::VectorOrder;
use preorder::{MAX_RULES, Preorder};

/// The order of vectors by a pre-order of rules, as `PairOrder`. It keeps for each rule one word
/// with a bit for each rule above it, so that one test tells whether a loss is excused. The rules
/// with none above them are tried first: no win excuses a loss at one of these.
#[derive(Clone, Copy)]
pub struct RankOrder {
    order: Preorder,
    words: [u32; MAX_RULES],
    pub ghost exact: { AreWordsAbove order words },
}

// The word with one bit set too.
fn with_bit(word: u32, bit: usize) -> u32
    requires { bit < MAX_RULES }
    ensures { (q : ℕ) → (bit_at result q == 1) ≡ (bit_at word q == 1 || q == bit) }
{
    word | 1 << bit
}

// The rules above a rule.
fn word_above(order: &Preorder, rule: usize) -> u32
    requires { rule < rules_of order.now }
    ensures { (q : ℕ) → (bit_at result q == 1) ≡ above order.now q rule }
{
    let mut word = 0;
    for other in 0..order.len() {
        if order.above(other, rule) {
            word = with_bit(word, other);
        }
    }
    word
}

// The rules that are violated less in `x`.
fn wins_of(x: &[u64], y: &[u64]) -> u32
    requires fits { length x.now ≤ MAX_RULES }
    requires same { length y.now ≡ length x.now }
    ensures { (q : ℕ) → (bit_at result q == 1)
        ≡ (nat_lt q (length x.now) && is_loss y.now x.now q) }
{
    let mut word = 0;
    for rule in 0..x.len() {
        if x[rule] < y[rule] {
            word = with_bit(word, rule);
        }
    }
    word
}

impl RankOrder {
    ghost use Rattle.rulebook_order.specs.RankOrder.{order_of};

    /// The order by this pre-order.
    pub fn new(order: &Preorder) -> RankOrder
        ensures order { order_of result ≡ order.now }
        ensures same { IsAsPairs order.now ⟦<PairOrder as VectorOrder>⟧.no_worse
            (⟦<RankOrder as VectorOrder>⟧.no_worse result) }
    {
        let mut words = [0; MAX_RULES];
        for rule in 0..order.len() {
            words[rule] = word_above(order, rule);
        }
        RankOrder {
            order: *order,
            words,
        }
    }
}

impl VectorOrder for RankOrder {
    ghost use Rattle.rulebook_order.specs.laws.PairLaws.{no_worse_by-laws};
    ghost use Rattle.rulebook_order.specs.RankOrder.{order_of};

    ghost rules = { λ ranks. rules_of (order_of ranks) };

    ghost no_worse = { λ ranks. no_worse_by (order_of ranks) };

    ghost laws = { λ ranks. no_worse_by-laws (order_of ranks) };

    fn width(&self) -> usize {
        self.order.len()
    }

    fn is_trade_off(&self) -> bool
        ensures { IsTrue result
            → IsTradeOff (rules_of (order_of self.now)) (no_worse_by (order_of self.now)) }
    {
        are_two_apart(&self.order)
    }

    fn no_worse(&self, x: &[u64], y: &[u64]) -> bool
        requires x { length x.now ≡ rules_of (order_of self.now) }
        requires y { length y.now ≡ rules_of (order_of self.now) }
        ensures value { result ≡ no_worse_by (order_of self.now) x.now y.now }
        ensures words { IsTrue result ↔ NoWorseBy (order_of self.now) x.now y.now }
    {
        let words = &self.words;
        for top in 0..x.len() {
            if y[top] < x[top] && words[top] == 0 {
                return false;
            }
        }
        let wins = wins_of(x, y);
        for rule in 0..x.len() {
            if y[rule] < x[rule] && words[rule] & wins == 0 {
                return false;
            }
        }
        true
    }
}
