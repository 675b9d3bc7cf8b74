ghost use Rattle.std.specs.Prelude.{◌≡◌};

use preorder::{List, Name, Preorder, PreorderFault, Violation};
use std::test::Fail;

#[test]
fn names_are_letters_then_letters_and_digits(rt: HostRuntime) {
    let rows: [(&[u8], bool); 8] = [
        (b"a", true),
        (b"_9", true),
        (b"a2345678901234567890abcd", true),
        (b"a2345678901234567890abcde", false),
        (b"", false),
        (b"9a", false),
        (b"a-b", false),
        (b"\xc3\xa9", false),
    ];
    for (text, is_name) in rows {
        let name = Name::new(text);
        assert_eq!(rt; name.is_some(), is_name);
        if let Some(name) = name {
            assert_eq!(rt; name.as_slice(), text);
        }
    }
}

#[test]
fn lists_keep_what_is_pushed(rt: HostRuntime) -> Result<(), Fail> {
    let mut list = List::new(rt.alloc());
    list.push(7)?;
    list.push(9)?;
    *list.at_mut(0) = 8;
    assert_eq!(rt; list.as_slice(), [8, 9].as_slice());
    Ok(())
}

#[test]
fn vectors_add_at_one_rule(rt: HostRuntime) -> Result<(), Fail> {
    let mut nine = Violation::zeros(rt.alloc(), 9)?;
    nine.add_at(8, 5);
    assert_eq!(rt; nine.as_slice(), [0, 0, 0, 0, 0, 0, 0, 0, 5].as_slice());
    let copy = Violation::copy_of(rt.alloc(), nine.as_slice())?;
    assert_eq!(rt; copy.as_slice(), nine.as_slice());
    Ok(())
}

#[test]
fn chains_of_statements_lead_down(rt: HostRuntime) -> Result<(), Fail> {
    let order = Preorder::from_statements(4, &[(0, 1), (1, 2), (2, 1)])?;
    assert_eq!(rt; order.len(), 4);
    let rows = [
        (0, 2, true, true, false),
        (2, 0, false, false, false),
        (1, 2, true, false, true),
        (3, 3, true, false, true),
        (0, 3, false, false, false),
    ];
    for (a, b, at_least, above, same) in rows {
        if a < order.len() && b < order.len() {
            assert_eq!(rt; order.at_least(a, b), at_least);
            assert_eq!(rt; order.above(a, b), above);
            assert_eq!(rt; order.same(a, b), same);
        }
    }
    let fault = Preorder::from_statements(2, &[(0, 1), (0, 2), (9, 9)]).err();
    assert_eq!(rt; fault, Some(PreorderFault::OutOfRange(1)));
    Ok(())
}
