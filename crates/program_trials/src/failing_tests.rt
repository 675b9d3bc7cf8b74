use command_outcome::Status;
use outside_io::{MemorySink, MemoryStore};
use rulebook_cli::run_rulebook;
use std::alloc::Global;
use std::test::Fail;

// Which call of the store or the sink fails, by its number, and how many bytes a save or a write
// keeps. 0 is none.
#[derive(Clone, Copy)]
struct Failing {
    load: u64,
    save: u64,
    write: u64,
    kept: usize,
}

const NOTHING: Failing = Failing {
    load: 0,
    save: 0,
    write: 0,
    kept: 0,
};

// What a call leaves: its status, its text, and what stands under `c`.
#[derive(Drop)]
struct Left {
    status: Status,
    text: Vec<u8>,
    certificate: Vec<u8>,
}

// The files of a scene, and a table for its book.
const SCENARIO: &[u8] =
    b"<commonRoad commonRoadVersion='2020a' timeStepSize='1'><planningProblem id='4'><initialState><position><point><x>1</x><y>2</y></point></position></initialState><goalState><time><exact>1</exact></time></goalState></planningProblem></commonRoad>";

const BOOK: &[u8] =
    b"rule a\npart a 1 maneuver(p)\nrule b\npart b 1 maneuver(q)\nrule c\npart c 1 0\nabove a b\n";

const LATTICE: &[u8] =
    b"horizon = 1\nlength = 1\nwidth = 1\ntolerance = 0\nclass = [{name = 'c', heading = 0, speed = 0}]\nmaneuver = [{name = 'p', from = 'c', to = 'c', steps = [[0, 0, 0, 0, 0, 0]]}, {name = 'q', from = 'c', to = 'c', steps = [[0, 0, 0, 0, 0, 0]]}]\n";

const TABLE: &[u8] = b"x 1 0 0\ny 0 5 0\nz 0 5 1\n";

// Runs the words over the files `s`, `b`, `l` and `t`, and over an old certificate `c`.
fn run(alloc: Global, words: &[&str], failing: Failing) -> Result<Left, Fail> {
    let mut given = Vec::new(alloc);
    for word in words {
        given.push(String::from_str(alloc, word)?)?;
    }
    let mut store = MemoryStore::new(alloc);
    store.put("s", SCENARIO)?;
    store.put("b", BOOK)?;
    store.put("l", LATTICE)?;
    store.put("t", TABLE)?;
    store.put("c", b"old")?;
    store.fail_load(failing.load);
    store.fail_save(failing.save, failing.kept);
    let mut out = MemorySink::with_room(alloc, 1_000)?;
    out.fail_write(failing.write, failing.kept);
    let status = run_rulebook(alloc, &given, &mut store, &mut out);
    Ok(Left {
        status,
        text: out.written().to_vec(alloc)?,
        certificate: store.get("c").ok_or("no certificate")?.to_vec(alloc)?,
    })
}

const PLAN: [&str; 5] = ["plan", "s", "b", "l", "c"];

const CHECK: [&str; 5] = ["check", "s", "b", "l", "c"];

#[test]
fn a_load_that_fails_is_told_with_its_role(rt: HostRuntime) -> Result<(), Fail> {
    let rows: [(&[&str], u64, &[u8]); 11] = [
        (&["pick", "b", "t"], 1, b"cannot read book\n"),
        (&["pick", "b", "t"], 2, b"cannot read table\n"),
        (&["compare", "b", "t"], 1, b"cannot read book\n"),
        (&["compare", "b", "t"], 2, b"cannot read table\n"),
        (&["show", "s"], 1, b"cannot read scenario\n"),
        (&["show", "none"], 0, b"cannot read scenario\n"),
        (&PLAN, 1, b"cannot read scenario\n"),
        (&PLAN, 3, b"cannot read lattice\n"),
        (&CHECK, 4, b"cannot read certificate\n"),
        (&["accept", "b", "b"], 1, b"cannot read parent\n"),
        (&["accept", "b", "b"], 2, b"cannot read child\n"),
    ];
    for (words, load, text) in rows {
        let left = run(rt.alloc(), words, Failing { load, ..NOTHING })?;
        assert_eq!(rt; left.status, Status::ReadFault);
        assert_eq!(rt; left.text.as_slice(), text);
        assert_eq!(rt; left.certificate.as_slice(), b"old".as_slice());
    }
    Ok(())
}

#[test]
fn a_write_that_fails_leaves_a_front(rt: HostRuntime) -> Result<(), Fail> {
    let rows: [(&[&str], usize, &[u8]); 8] = [
        (&["pick", "b", "t"], 0, b""),
        (&["pick", "b", "t"], 3, b"y 0"),
        (&["pick", "b", "t"], 1000, b"y 0 5 0\n"),
        (&["compare", "b", "t"], 14, b"x y second a\nx"),
        (&["show", "s"], 0, b""),
        (&["show", "s"], 19, b"version 2020a\nstep "),
        (
            &["show", "s"],
            1000,
            b"version 2020a\nstep 1000000\nlanelets 0\nobstacles 0\nproblems 1\nproblem 4 x 10000 y 20000 heading 0 speed 0 tick 0 goals 1\n",
        ),
        (&["show", "l"], 16, b"refused scenario"),
    ];
    for (words, kept, text) in rows {
        let failing = Failing {
            write: 1,
            kept,
            ..NOTHING
        };
        let left = run(rt.alloc(), words, failing)?;
        assert_eq!(rt; left.status, Status::WriteFault);
        assert_eq!(rt; left.text.as_slice(), text);
    }
    Ok(())
}

// What `plan` saves is saved before it prints.
#[test]
fn a_save_that_fails_leaves_a_front(rt: HostRuntime) -> Result<(), Fail> {
    let left = run(rt.alloc(), &PLAN, NOTHING)?;
    assert_eq!(rt; left.status, Status::Done);
    assert_eq!(rt;
        left.text.as_slice(),
        b"rules a b c\nfront 1\n0 1 0 : q\n".as_slice()
    );
    assert_eq!(rt;
        left.certificate.as_slice(),
        b"rulebook certificate 1\nlabels 2\n0 1\nlinks\n1 1\n\nfinals 1\ngoals 1\nend\n".as_slice()
    );
    let failing = Failing {
        save: 1,
        kept: 10,
        ..NOTHING
    };
    let left = run(rt.alloc(), &PLAN, failing)?;
    assert_eq!(rt; left.status, Status::WriteFault);
    assert_eq!(rt; left.text.as_slice(), b"".as_slice());
    assert_eq!(rt; left.certificate.as_slice(), b"rulebook c".as_slice());
    Ok(())
}

// The program's words are at least none.
#[test]
fn no_words_ask_for_nothing(rt: HostRuntime) -> Result<(), Fail> {
    let left = run(rt.alloc(), &[], NOTHING)?;
    assert_eq!(rt; left.status, Status::Usage);
    assert_eq!(rt; left.text.as_slice(), b"usage: see --help\n".as_slice());
    Ok(())
}
