ghost use Rattle.std.specs.Prelude.{◌≡◌, ◌<◌, ◌≤◌};
ghost use Rattle.label_search.specs.declared.searching.TheConstants.{MAX_LIMIT};

use crate::fan::Fan;
use crate::last_first::LastFirst;
use crate::table::Table;
use certificate_checker::{Checked, Rejection, check};
use domination_proof::{certificate_of, read_certificate, write_certificate};
use label_search::{SearchFault, search};
use preorder::Preorder;
use rulebook_order::{PairOrder, StepGraph, Steps, VectorOrder};
use std::alloc::Global;
use std::marker::Brand;
use std::sync::ledger::{Blank, Ledger};
use std::test::Fail;

// Searches the fan, and checks the certificate of what was found. Gives how many labels, finals
// and answers there are.
fn searched<L: Ledger>(
    alloc: Global,
    blank: Blank,
    limit: usize,
) -> Result<(usize, usize, usize), Fail>
    requires name { blank.name ≡ L.name }
    requires parts { blank.parts ≡ L.parts }
    requires some { 0 < blank.parts }
    requires low { 0 < limit }
    requires high { limit ≤ MAX_LIMIT }
{
    let pairs = PairOrder::new(Preorder::from_statements(2, &[])?);
    let mut steps = Steps::<L>::new(blank);
    let found = search(alloc, &Fan, &pairs, limit, &mut steps)?;
    let cert = certificate_of(alloc, &found)?;
    let checked = check(alloc, &Fan, &pairs, &cert, &mut steps)?;
    Ok((
        found.labels.as_slice().len(),
        found.finals.as_slice().len(),
        checked.answers.as_slice().len(),
    ))
}

#[test]
fn a_fan_is_searched_and_checked(rt: HostRuntime) -> Result<(), Fail> {
    let (labels, finals, answers) = searched::<Brand>(rt.alloc(), Blank::new(1), 20000)?;
    assert_eq!(rt; labels, 19566);
    assert_eq!(rt; finals, 1086);
    assert_eq!(rt; answers, 1086);
    Ok(())
}

// Searches the table, and gives the text of the certificate of what was found; none where there
// are too many labels.
fn table_text<O: VectorOrder, L: Ledger>(
    alloc: Global,
    blank: Blank,
    order: &O,
    limit: usize,
) -> Result<Option<Vec<u8>>, Fail>
    requires name { blank.name ≡ L.name }
    requires parts { blank.parts ≡ L.parts }
    requires some { 0 < blank.parts }
    requires order { O.rules order.now ≡ 2 }
    requires low { 0 < limit }
    requires high { limit ≤ MAX_LIMIT }
{
    let mut steps = Steps::<L>::new(blank);
    match search(alloc, &Table, order, limit, &mut steps) {
        Err(SearchFault::TooManyLabels) => Ok(None),
        Err(fault) => Err(fault.into()),
        Ok(found) => {
            let cert = certificate_of(alloc, &found)?;
            Ok(Some(write_certificate(alloc, &cert)?))
        }
    }
}

#[test]
fn a_table_is_searched_by_two_orders(rt: HostRuntime) -> Result<(), Fail> {
    let pairs = PairOrder::new(Preorder::from_statements(2, &[])?);
    let text = table_text::<PairOrder, Brand>(rt.alloc(), Blank::new(1), &pairs, 8)?.ok_or(
        "found",
    )?;
    assert_eq!(rt;
        text.as_slice(),
        b"rulebook certificate 1\nlabels 8\n0 0\n0 1\n0 2\n1 0\n1 1\n2 0\n3 1\nlinks\n1 2 3\n4 5\n6\n6 7\n\n\n\n\nfinals 0 4 6\ngoals 0 4 4 6 6\nend\n".as_slice()
    );
    assert!(rt; table_text::<PairOrder, Brand>(rt.alloc(), Blank::new(1), &pairs, 7)?.is_none());
    let last = LastFirst { width: 2 };
    let text = table_text::<LastFirst, Brand>(rt.alloc(), Blank::new(1), &last, 5)?.ok_or("found")?;
    assert_eq!(rt;
        text.as_slice(),
        b"rulebook certificate 1\nlabels 5\n0 0\n0 1\n1 0\n1 1\nlinks\n1 2 1\n3 4\n3\n\n\nfinals 3\ngoals 3 3 3\nend\n".as_slice()
    );
    assert!(rt; table_text::<LastFirst, Brand>(rt.alloc(), Blank::new(1), &last, 4)?.is_none());
    Ok(())
}

// Reads a certificate of the table, and checks it by two rules of which neither is above the
// other.
fn finding<L: Ledger>(
    alloc: Global,
    blank: Blank,
    text: &[u8],
) -> Result<Result<Checked, Rejection>, Fail>
    requires name { blank.name ≡ L.name }
    requires parts { blank.parts ≡ L.parts }
    requires some { 0 < blank.parts }
{
    let pairs = PairOrder::new(Preorder::from_statements(2, &[])?);
    let cert = read_certificate(alloc, text)?;
    let mut steps = Steps::<L>::new(blank);
    Ok(check(alloc, &Table, &pairs, &cert, &mut steps))
}

#[test]
fn a_certificate_made_by_hand_is_accepted(rt: HostRuntime) -> Result<(), Fail> {
    let text =
        b"rulebook certificate 1\nlabels 8\n0 0\n0 1\n0 2\n1 1\n1 0\n3 0\n3 1\nlinks\n1 2 3\n5 4\n6\n6 7\n\n\n\n\nfinals 7 4 0\ngoals 0 4 4 7 7\nend\n";
    let checked = finding::<Brand>(rt.alloc(), Blank::new(1), text)?
        .ok()
        .ok_or("accepted")?;
    let rows: [(&[u64], &[u32]); 3] = [(&[1, 2], &[2, 1]), (&[2, 0], &[0, 1]), (&[0, 3], &[])];
    assert_eq!(rt; checked.answers.as_slice().len(), 3);
    for (answer, (vector, choices)) in checked.answers.as_slice().iter().zip(rows.iter()) {
        assert_eq!(rt; answer.vector.as_slice(), *vector);
        assert_eq!(rt; answer.choices.as_slice(), *choices);
    }
    Ok(())
}

// The text of a certificate, from its lines of labels and links, and the numbers behind `finals`
// and `goals`.
fn text_of(
    alloc: Global,
    heads: &[u8],
    links: &[u8],
    finals: &[u8],
    goals: &[u8],
) -> Result<Vec<u8>, Fail> {
    let mut text = Vec::new(alloc);
    for part in [
        b"rulebook certificate 1\n".as_slice(),
        heads,
        b"links\n".as_slice(),
        links,
        b"finals".as_slice(),
        finals,
        b"\ngoals".as_slice(),
        goals,
        b"\nend\n".as_slice(),
    ] {
        text.extend_from_slice(part)?;
    }
    Ok(text)
}

#[test]
fn each_condition_fails_alone(rt: HostRuntime) -> Result<(), Fail> {
    let heads = b"labels 8\n0 0\n0 1\n0 2\n1 0\n1 1\n2 0\n3 1\n".as_slice();
    let links = b"1 2 3\n4 5\n6\n6 7\n\n\n\n\n".as_slice();
    let finals = b" 0 4 6".as_slice();
    let goals = b" 0 4 4 6 6".as_slice();
    let rows: [(&[u8], &[u8], &[u8], &[u8], u8, u32); 17] = [
        (b"labels 0\n", b"", b"", b"", 1, 0),
        (
            b"labels 8\n0 0\n0 1\n0 2\n1 0\n5 1\n2 0\n3 1\n",
            links,
            finals,
            goals,
            2,
            5,
        ),
        (
            b"labels 8\n0 0\n0 1\n0 2\n1 0\n1 1\n2 1\n3 1\n",
            links,
            finals,
            goals,
            3,
            6,
        ),
        (heads, b"1 2 3\n4 5\n6\n6\n\n\n\n\n", finals, goals, 4, 3),
        (heads, b"1 2 3\n4 5\n6\n6 6\n\n\n\n\n", finals, goals, 4, 3),
        (heads, b"1 2 3\n4 5\n4\n6 7\n\n\n\n\n", finals, goals, 4, 2),
        (heads, b"1 2 3\n4 9\n6\n6 7\n\n\n\n\n", finals, goals, 4, 1),
        (heads, links, b" 0 4 6 3", goals, 5, 3),
        (heads, links, b" 0 4 6 8", goals, 5, 8),
        (heads, links, finals, b" 0 4 4 6", 6, 7),
        (heads, links, finals, b" 0 4 6 6 6", 6, 5),
        (heads, links, finals, b" 0 4 5 6 6", 6, 5),
        (heads, links, b" 0 4 6 7", goals, 7, 7),
        (heads, links, b" 0 4 6 4", goals, 7, 4),
        (heads, b"1 2 3\n4 5\n6\n6 7\n4\n\n\n\n", finals, goals, 8, 4),
        (
            heads,
            b"1 2 3\n4 5\n6 6\n6 7\n\n\n\n\n",
            finals,
            goals,
            8,
            2,
        ),
        (heads, links, finals, b" 0 4 4 6 6 6", 8, 8),
    ];
    for (heads, links, finals, goals, number, label) in rows {
        let text = text_of(rt.alloc(), heads, links, finals, goals)?;
        assert_eq!(rt;
            finding::<Brand>(rt.alloc(), Blank::new(1), text.as_slice())?.err(),
            Some(Rejection::Condition(number, label))
        );
    }
    Ok(())
}
