ghost use Rattle.std.specs.Prelude.{IfOk};
ghost use Rattle.rule_language.specs.Books.{IsBook};

use book_operations::{
    Accepted, accept, apply_script, test_aggregation, test_augmentation, test_refinement,
};
use rule_language::{Book, read_book, write_book};
use std::alloc::Global;
use std::test::Fail;

fn book(alloc: Global, text: &[u8]) -> Result<Book, Fail>
    ensures { IfOk result IsBook }
{
    let book = read_book(alloc, text).ok().ok_or("a book")?;
    Ok(book)
}

// What is refused, and why, is told by the rows of `accept` and `derive`.
#[test]
fn a_step_from_a_book_is_a_refinement_an_aggregation_or_an_augmentation(
    rt: HostRuntime,
) -> Result<(), Fail> {
    let at = rt.alloc();
    let parent = book(
        at,
        b"rule a\npart a 1 overlaps\nrule b\npart b 1 off_road\nsame a b\n",
    )?;
    let sum = book(at, b"rule m\npart m 2 overlaps\npart m 3 off_road\n")?;
    let more = book(
        at,
        b"rule a\npart a 1 overlaps\nrule b\npart b 1 off_road\nrule c\nsame a b\nabove a c\n",
    )?;
    assert!(rt; test_refinement(at, &parent, &parent).is_ok());
    assert!(rt; test_aggregation(at, &parent, &sum).is_ok());
    assert!(rt; test_augmentation(at, &parent, &more).is_ok());
    assert!(rt; test_refinement(at, &parent, &more).is_err());
    let step = accept(at, &parent, &sum).ok();
    assert!(rt; step == Some(Accepted::Aggregation));
    Ok(())
}

#[test]
fn a_script_derives_a_book(rt: HostRuntime) -> Result<(), Fail> {
    let at = rt.alloc();
    let parent = book(
        at,
        b"rule a\npart a 1 overlaps\nrule b\npart b 1 off_road\nsame a b\n",
    )?;
    let derived = apply_script(at, &parent, b"merge m 2 a 3 b\n")
        .ok()
        .ok_or("a derived book")?;
    let written = write_book(at, &derived)?;
    assert_eq!(rt;
        written.as_slice(),
        b"rule m\npart m 2 overlaps\npart m 3 off_road\n".as_slice()
    );
    Ok(())
}
