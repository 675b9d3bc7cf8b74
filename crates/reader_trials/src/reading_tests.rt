use reading::{PAST, number_in, split_line, words_of};
use std::test::Fail;

#[test]
fn lines_end_with_a_feed_and_lose_one_return(rt: HostRuntime) {
    let rows: [(&[u8], Option<(&[u8], &[u8])>); 6] = [
        (b"", None),
        (b"\n", Some((b"", b""))),
        (b"a", Some((b"a", b""))),
        (b"a\r", Some((b"a\r", b""))),
        (b"a\r\r\nb\n", Some((b"a\r", b"b\n"))),
        (b"a\rb\n\n", Some((b"a\rb", b"\n"))),
    ];
    for (bytes, cut) in rows {
        assert_eq!(rt; split_line(bytes), cut);
    }
}

#[test]
fn words_stand_apart_by_spaces_and_tabs(rt: HostRuntime) -> Result<(), Fail> {
    let words = words_of(rt.alloc(), b" \ta  b\tc\r ")?;
    assert_eq!(rt; words.len(), 3);
    assert_eq!(rt; words.get(0).copied(), Some(b"a".as_slice()));
    assert_eq!(rt; words.get(1).copied(), Some(b"b".as_slice()));
    assert_eq!(rt; words.get(2).copied(), Some(b"c\r".as_slice()));
    Ok(())
}

#[test]
fn numbers_are_digits(rt: HostRuntime) {
    let rows: [(&[u8], Option<u64>); 8] = [
        (b"", None),
        (b"0", Some(0)),
        (b"007", Some(7)),
        (b"-1", None),
        (b"+1", None),
        (b"1x", None),
        (b"1000000000000000000", Some(1_000_000_000_000_000_000)),
        (b"99999999999999999999999999", Some(PAST)),
    ];
    for (word, number) in rows {
        assert_eq!(rt; number_in(word), number);
    }
}
