use expressions::{Expr, copy_expr, nesting, push_expr, read_expr, written_len};
use std::test::Fail;

// What is read and written otherwise, and what is refused, is told by the rows of `derive`.
#[test]
fn the_tree_of_a_difference_is_from_the_left(rt: HostRuntime) -> Result<(), Fail> {
    let expr = read_expr(rt.alloc(), b"1 - 2 - 3")
        .ok()
        .ok_or("an expression")?;
    let Expr::Sub(difference, last) = &expr else {
        return Err(Fail::from("a difference"));
    };
    assert!(rt; matches!(last.get(), Expr::Const(3)));
    let Expr::Sub(first, second) = difference.get() else {
        return Err(Fail::from("a difference"));
    };
    assert!(rt; matches!(first.get(), Expr::Const(1)));
    assert!(rt; matches!(second.get(), Expr::Const(2)));
    assert_eq!(rt; written_len(&expr), 13);
    assert_eq!(rt; nesting(&expr), 2);
    let copy = copy_expr(rt.alloc(), &expr)?;
    let mut out = Vec::new(rt.alloc());
    push_expr(rt.alloc(), &mut out, &copy)?;
    assert_eq!(rt; out.as_slice(), b"((1 - 2) - 3)".as_slice());
    Ok(())
}
