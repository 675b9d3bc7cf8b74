use element_tree::{Tree, read_tree};
use std::alloc::Global;
use std::test::Fail;

fn tree_of(alloc: Global, bytes: &[u8]) -> Result<Tree<'_>, Fail> {
    match read_tree(alloc, bytes) {
        Ok(tree) => Ok(tree),
        Err(_) => Err(Fail::from("refused")),
    }
}

const DOCUMENT: &[u8] =
    b"\xEF\xBB\xBF<!-- > --><r><\xC3\xA9 x='a>b' y = \"it's\" >&amp; t </\xC3\xA9 ><b>p<!-- -->q</b><c y=\"2\" x=\"1\"/><d> \t\r\n u v \n</d></r>\n<?end?>";

#[test]
fn elements_are_slices_of_the_document(rt: HostRuntime) -> Result<(), Fail> {
    let tree = tree_of(rt.alloc(), DOCUMENT)?;
    let rows: [(usize, &[u8], Option<&[u8]>, Option<u32>, Option<u32>); 5] = [
        (13, b"r", None, Some(1), None),
        (16, b"\xC3\xA9", Some(b"&amp; t"), None, Some(2)),
        (54, b"b", None, None, Some(3)),
        (71, b"c", Some(b""), None, Some(4)),
        (87, b"d", Some(b"u v"), None, None),
    ];
    assert_eq!(rt; tree.count(), 5);
    for (node, (place, name, text, first_child, next_sibling)) in rows.into_iter().enumerate() {
        let node = node as u32;
        assert!(rt; node < tree.count());
        assert_eq!(rt; tree.place(node), place);
        assert_eq!(rt; tree.name(node), name);
        assert_eq!(rt; tree.text(node), text);
        assert_eq!(rt; tree.first_child(node), first_child);
        assert_eq!(rt; tree.next_sibling(node), next_sibling);
    }
    Ok(())
}

#[test]
fn attributes_stand_in_any_order(rt: HostRuntime) -> Result<(), Fail> {
    let tree = tree_of(rt.alloc(), DOCUMENT)?;
    let rows: [(u32, &[u8], Option<&[u8]>); 6] = [
        (0, b"x", None),
        (1, b"x", Some(b"a>b")),
        (1, b"y", Some(b"it's")),
        (1, b"z", None),
        (3, b"x", Some(b"1")),
        (3, b"y", Some(b"2")),
    ];
    for (node, name, value) in rows {
        assert!(rt; node < tree.count());
        assert_eq!(rt; tree.attribute(node, name), value);
    }
    Ok(())
}
