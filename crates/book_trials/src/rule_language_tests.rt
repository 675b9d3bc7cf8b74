use preorder::Name;
use rule_language::{copy_book, cut_line, read_book, read_table, write_book, written_fits};
use std::alloc::Global;
use std::test::Fail;

// A text with so many copies of one word after it, each behind the joint.
fn joined(
    alloc: Global,
    head: &[u8],
    word: &[u8],
    joint: &[u8],
    count: usize,
) -> Result<Vec<u8>, Fail> {
    let mut text = head.to_vec(alloc)?;
    text.extend_from_slice(word)?;
    for _ in 1..count {
        text.extend_from_slice(joint)?;
        text.extend_from_slice(word)?;
    }
    Ok(text)
}

// A book whose one rule has one part, of which the expression is written in 1,012 bytes: 35 names
// of 24 bytes, 33 times a sign with its blanks and brackets, and a call of two.
fn with_long_part(alloc: Global, head: &[u8]) -> Result<Vec<u8>, Fail> {
    let first = joined(alloc, head, LONG_NAME, b"*", 20)?;
    let mut text = joined(alloc, first.as_slice(), b",", b"", 1)?;
    let second = joined(alloc, b"", LONG_NAME, b"+", 15)?;
    text.extend_from_slice(second.as_slice())?;
    text.push(b')')?;
    Ok(text)
}

const LONG_NAME: &[u8] = b"a23456789012345678901234";

const BOOK: &[u8] = b"# a book\r\n\n\trule  a # the first\r\nrule b_2\n \nsame a b_2\nabove b_2 a";

#[test]
fn a_book_has_the_statements_of_its_lines(rt: HostRuntime) -> Result<(), Fail> {
    let book = read_book(rt.alloc(), BOOK).ok().ok_or("a book")?;
    let expected = [(0, 1), (1, 0), (1, 0)];
    assert_eq!(rt; book.statements.as_slice(), expected.as_slice());
    Ok(())
}

#[test]
fn the_order_of_a_book_is_its_closure(rt: HostRuntime) -> Result<(), Fail> {
    let text = b"rule a\nrule b\nrule c\nabove a b\nabove b c\n";
    let book = read_book(rt.alloc(), text).ok().ok_or("a book")?;
    let order = book.order();
    assert_eq!(rt; order.len(), 3);
    if order.len() == 3 {
        assert!(rt; order.above(0, 2));
        assert!(rt; !order.above(2, 0));
    }
    Ok(())
}

#[test]
fn a_table_is_its_rows(rt: HostRuntime) -> Result<(), Fail> {
    let text = b"# rows\nx 1 02\r\n\ny\t3 1000000000000000000 # large";
    let table = read_table(rt.alloc(), text, 2).ok().ok_or("a table")?;
    let [x, y] = table.rows.as_slice() else {
        return Err(Fail::from("two rows"));
    };
    assert_eq!(rt; x.name.as_slice(), b"x".as_slice());
    assert_eq!(rt; x.values.as_slice(), [1, 2].as_slice());
    assert_eq!(rt; y.name.as_slice(), b"y".as_slice());
    assert_eq!(rt;
        y.values.as_slice(),
        [3, 1_000_000_000_000_000_000].as_slice()
    );
    let none = read_table(rt.alloc(), b"\n#\n", 1).ok().ok_or("no rows")?;
    assert_eq!(rt; none.rows.as_slice().len(), 0);
    Ok(())
}

#[test]
fn lines_are_cut_without_their_comments(rt: HostRuntime) {
    assert_eq!(rt; cut_line(b""), None);
    assert_eq!(rt;
        cut_line(b"a # b\r\nc"),
        Some((b"a ".as_slice(), b"c".as_slice(), 5))
    );
    assert_eq!(rt; cut_line(b"\n"), Some((b"".as_slice(), b"".as_slice(), 0)));
}

#[test]
fn a_book_is_written_and_read_again(rt: HostRuntime) -> Result<(), Fail> {
    let rows: [(&[u8], &[u8]); 5] = [
        (b"rule a", b"rule a\n"),
        (
            b"rule a\npart a 3 1 - 2 * tick\nfinal a 05 abs(speed)\nrule b\nsame a b",
            b"rule a\npart a 3 (1 - (2 * tick))\nfinal a 5 abs(speed)\nrule b\nabove a b\nabove b a\n",
        ),
        (
            b"rule a\nrule b\nabove b a\n# late\n part\ta 1 max( 0,speed-13900 ) # mm/s\r\npart b 1000000 - x",
            b"rule a\npart a 1 max(0, (speed - 13900))\nrule b\npart b 1000000 -x\nabove b a\n",
        ),
        (
            b"rule a\nfinal a 0000001 1\npart a 1 1\nfinal a 1 1",
            b"rule a\nfinal a 1 1\npart a 1 1\nfinal a 1 1\n",
        ),
        (
            b"rule part\nrule final\nabove part final",
            b"rule part\nrule final\nabove part final\n",
        ),
    ];
    for (text, written) in rows {
        let book = read_book(rt.alloc(), text).ok().ok_or("a book")?;
        let copy = copy_book(rt.alloc(), &book)?;
        let bytes = write_book(rt.alloc(), &copy)?;
        assert_eq!(rt; bytes.as_slice(), written);
        let again = read_book(rt.alloc(), bytes.as_slice())
            .ok()
            .ok_or("a book")?;
        let bytes = write_book(rt.alloc(), &again)?;
        assert_eq!(rt; bytes.as_slice(), written);
    }
    Ok(())
}

#[test]
fn a_part_fits_by_the_name_of_its_rule(rt: HostRuntime) -> Result<(), Fail> {
    let text = with_long_part(rt.alloc(), b"rule abcd\npart abcd 1 min(")?;
    let book = read_book(rt.alloc(), text.as_slice()).ok().ok_or("a book")?;
    let [rule] = book.rules.as_slice() else {
        return Err(Fail::from("one rule"));
    };
    let [part] = rule.parts.as_slice() else {
        return Err(Fail::from("one part"));
    };
    let longer = Name::new(b"abcde").ok_or("a name")?;
    assert!(rt; written_fits(&rule.name, part));
    assert!(rt; !written_fits(&longer, part));
    Ok(())
}
