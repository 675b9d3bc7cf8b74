ghost use Rattle.std.specs.Prelude.{◌≡◌, ◌≤◌, length, IfOk};
ghost use Rattle.preorder.specs.Violation.{IsWidth};
ghost use Rattle.preorder.specs.declared.limits.TheConstants.{MAX_RULES};

use preorder::{Name, Preorder, Row, Violation};
use rulebook_order::{
    ChainOrder, PairOrder, ParetoOrder, RankOrder, VectorOrder, Verdict, compare, front_of, why_not,
};
use std::alloc::Global;
use std::test::Fail;

fn row(alloc: Global, values: &[u64]) -> Result<Row, Fail>
    requires { IsWidth (length values.now) }
    ensures { IfOk result (λ row. row.values ≡ values.now) }
{
    Ok(Row {
        name: Name::new(b"a").ok_or("name")?,
        values: Violation::copy_of(alloc, values)?,
    })
}

// Asks through the trait alone.
fn is_no_worse<O: VectorOrder>(order: &O, x: &[u64], y: &[u64]) -> bool
    requires x { length x.now ≡ O.rules order.now }
    requires y { length y.now ≡ O.rules order.now }
    ensures { result ≡ O.no_worse order.now x.now y.now }
{
    order.no_worse(x, y)
}

#[test]
fn the_front_of_three_rows(rt: HostRuntime) -> Result<(), Fail> {
    let order = Preorder::from_statements(3, &[(0, 1)])?;
    let rows = [
        row(rt.alloc(), &[1, 0, 0])?,
        row(rt.alloc(), &[0, 5, 0])?,
        row(rt.alloc(), &[0, 5, 1])?,
    ];
    let front = front_of(rt.alloc(), &PairOrder::new(order), &rows)?;
    assert_eq!(rt; front.as_slice(), [1].as_slice());
    Ok(())
}

#[test]
fn an_equal_later_row_is_dropped(rt: HostRuntime) -> Result<(), Fail> {
    let order = Preorder::from_statements(2, &[])?;
    let rows = [row(rt.alloc(), &[2, 2])?, row(rt.alloc(), &[2, 2])?];
    let front = front_of(rt.alloc(), &PairOrder::new(order), &rows)?;
    assert_eq!(rt; front.as_slice(), [0].as_slice());
    Ok(())
}

#[test]
fn four_verdicts(rt: HostRuntime) -> Result<(), Fail> {
    let order = Preorder::from_statements(3, &[(0, 1)])?;
    let x = [1, 0, 0];
    let y = [0, 5, 0];
    let z = [0, 5, 1];
    assert_eq!(rt; compare(&order, &x, &y), Verdict::Second(0));
    assert_eq!(rt; compare(&order, &x, &z), Verdict::Neither(0, 2));
    assert_eq!(rt; compare(&order, &y, &z), Verdict::First(2));
    assert_eq!(rt; compare(&order, &y, &y), Verdict::Equal);
    Ok(())
}

#[test]
fn a_win_on_an_equal_rule_excuses_nothing(rt: HostRuntime) -> Result<(), Fail> {
    let order = Preorder::from_statements(2, &[(0, 1), (1, 0)])?;
    assert_eq!(rt; why_not(&order, &[0, 1], &[1, 0]), Some(1));
    assert_eq!(rt; why_not(&order, &[1, 0], &[0, 1]), Some(0));
    let pairs = PairOrder::new(order);
    assert_eq!(rt; pairs.width(), 2);
    assert!(rt; !is_no_worse(&pairs, &[0, 1], &[1, 0]));
    assert!(rt; !is_no_worse(&pairs, &[1, 0], &[0, 1]));
    assert!(rt; pairs.no_worse(&[0, 1], &[0, 1]));
    Ok(())
}

// Whether the rules stand in a chain, and whether none is above another.
fn shape(rules: usize, statements: &[(usize, usize)]) -> Result<(bool, bool), Fail>
    requires { rules ≤ MAX_RULES }
{
    let order = Preorder::from_statements(rules, statements)?;
    Ok((
        ChainOrder::new(&order).is_some(),
        ParetoOrder::new(&order).is_some(),
    ))
}

#[test]
fn each_order_takes_its_shapes(rt: HostRuntime) -> Result<(), Fail> {
    assert_eq!(rt; shape(3, &[(0, 1)])?, (false, false));
    assert_eq!(rt; shape(1, &[])?, (true, true));
    assert_eq!(rt; shape(2, &[(0, 1), (1, 0)])?, (false, true));
    assert_eq!(rt; shape(2, &[(1, 0)])?, (true, false));
    Ok(())
}

#[test]
fn a_win_on_a_rule_above_excuses(rt: HostRuntime) -> Result<(), Fail> {
    let ranks = RankOrder::new(&Preorder::from_statements(3, &[(0, 1)])?);
    assert_eq!(rt; ranks.width(), 3);
    assert!(rt; is_no_worse(&ranks, &[0, 5, 0], &[1, 0, 0]));
    assert!(rt; !is_no_worse(&ranks, &[0, 5, 1], &[1, 0, 0]));
    Ok(())
}
