use command_outcome::{
    Ending, Reply, Role, Status, Stop, deliver, end_as, load_bytes, refuse, refuse_at, save_bytes,
};
use outside_io::{MemorySink, MemoryStore};
use std::test::Fail;

#[test]
fn a_file_that_is_not_held_is_unread(rt: HostRuntime) -> Result<(), Fail> {
    let mut store = MemoryStore::new(rt.alloc());
    store.put("b", b"bytes")?;
    let bytes = load_bytes(rt.alloc(), &mut store, Role::Book, "b")
        .ok()
        .ok_or("held")?;
    assert_eq!(rt; bytes.as_slice(), b"bytes".as_slice());
    let unread = matches!(
        load_bytes(rt.alloc(), &mut store, Role::Table, "t"),
        Err(Stop::Unread(Role::Table))
    );
    assert!(rt; unread);
    Ok(())
}

// Whether the name holds these bytes.
fn holds(store: &MemoryStore, name: &str, bytes: &[u8]) -> bool {
    match store.get(name) {
        Some(held) => held == bytes,
        None => false,
    }
}

#[test]
fn a_save_that_fails_is_told(rt: HostRuntime) -> Result<(), Fail> {
    let mut store = MemoryStore::new(rt.alloc());
    store.fail_save(2, 3);
    assert!(rt; save_bytes(&mut store, "c", b"first").is_ok());
    assert!(rt; holds(&store, "c", b"first"));
    let unsaved = matches!(save_bytes(&mut store, "c", b"second"), Err(Stop::Unsaved));
    assert!(rt; unsaved);
    assert!(rt; holds(&store, "c", b"sec"));
    Ok(())
}

#[test]
fn a_reply_is_written_in_one_go(rt: HostRuntime) -> Result<(), Fail> {
    let mut out = MemorySink::with_room(rt.alloc(), 39)?;
    let refused = Reply::to(Err(refuse(rt.alloc(), Role::Book, "no-rules")));
    assert_eq!(rt; deliver(&mut out, &refused), Status::Refused);
    let unsaved = Reply::to(Err(Stop::Unsaved));
    assert_eq!(rt; deliver(&mut out, &unsaved), Status::WriteFault);
    let unread = Reply::to(Err(Stop::Unread(Role::Table)));
    assert_eq!(rt; deliver(&mut out, &unread), Status::WriteFault);
    assert_eq!(rt;
        out.written(),
        b"refused book no-rules\ncannot read table".as_slice()
    );
    Ok(())
}

#[test]
fn each_end_has_its_status_and_its_text(rt: HostRuntime) -> Result<(), Fail> {
    let rows: [(Ending, &str, Status); 3] = [
        (Ending::Refused, "refused\n", Status::Refused),
        (Ending::Rejected, "rejected 7 2\n", Status::Rejected),
        (
            Ending::TooManyLabels,
            "too many labels\n",
            Status::TooManyLabels,
        ),
    ];
    for (ending, text, status) in rows {
        let reply = Reply::to(Err(end_as(rt.alloc(), ending, text)));
        assert_eq!(rt; reply.status(), status);
        assert_eq!(rt; reply.text(), text.as_bytes());
    }
    assert_eq!(rt; Reply::Usage.status(), Status::Usage);
    assert_eq!(rt; Reply::Usage.text(), b"usage: see --help\n".as_slice());
    Ok(())
}

#[test]
fn a_fault_of_a_line_has_its_number(rt: HostRuntime) -> Result<(), Fail> {
    let Stop::Ended(_, text) = refuse_at(rt.alloc(), Role::Table, "wrong-width", 12) else {
        return Err(Fail::from("a refusal"));
    };
    assert_eq!(rt;
        text.as_slice(),
        b"refused table wrong-width 12\n".as_slice()
    );
    Ok(())
}
