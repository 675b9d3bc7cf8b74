ghost use Rattle.std.specs.Prelude.{◌≡◌};

use outside_io::{
    FileStore, LoadFault, MemorySink, MemoryStore, SaveFault, Sink, SinkFault, StdSink, Store,
};
use std::alloc::Global;
use std::cell::Cell;
use std::fmt::Display;
use std::io::{Print, Write};
use std::test::Fail;
use std::{fs, io};

// What a store answers to a load, through the trait's bound.
fn loaded<S: Store>(alloc: Global, store: &mut S, name: &str) -> Option<Vec<u8>> {
    store.load(alloc, name).ok()
}

#[test]
fn a_store_in_memory_loads_what_it_holds(rt: HostRuntime) -> Result<(), Fail> {
    let mut store = MemoryStore::new(rt.alloc());
    store.put("a", b"old")?;
    store.put("b", b"other")?;
    store.put("a", b"new")?;
    assert_eq!(rt; store.get("a"), Some(b"new".as_slice()));
    assert_eq!(rt; store.get("c"), None);
    let bytes = loaded(rt.alloc(), &mut store, "a").ok_or("held")?;
    assert_eq!(rt; bytes.as_slice(), b"new".as_slice());
    assert_eq!(rt; store.load(rt.alloc(), "c").err(), Some(LoadFault::Failed));
    store.fail_load(4);
    let other = store.load(rt.alloc(), "b").ok().ok_or("the third load")?;
    assert_eq!(rt; other.as_slice(), b"other".as_slice());
    assert_eq!(rt; store.load(rt.alloc(), "b").err(), Some(LoadFault::Failed));
    let again = store.load(rt.alloc(), "b").ok().ok_or("the fifth load")?;
    assert_eq!(rt; again.as_slice(), b"other".as_slice());
    assert_eq!(rt; store.loads(), 5);
    Ok(())
}

// What a store answers to a save, through the trait's bound.
fn saved<S: Store>(store: &mut S, name: &str, bytes: &[u8]) -> Result<(), SaveFault> {
    store.save(name, bytes)
}

// Whether the name holds these bytes.
fn holds(store: &MemoryStore, name: &str, bytes: &[u8]) -> bool {
    match store.get(name) {
        Some(held) => held == bytes,
        None => false,
    }
}

#[test]
fn a_store_in_memory_holds_what_is_saved(rt: HostRuntime) -> Result<(), Fail> {
    let mut store = MemoryStore::new(rt.alloc());
    store.put("a", b"old")?;
    store.put("b", b"other")?;
    assert_eq!(rt; saved(&mut store, "a", b"new bytes"), Ok(()));
    assert!(rt; holds(&store, "a", b"new bytes"));
    let rows: [(u64, usize, &[u8]); 4] = [
        (2, 0, b""),
        (3, 1, b"l"),
        (4, 5, b"later"),
        (5, 9, b"later"),
    ];
    for (nth, kept, front) in rows {
        store.fail_save(nth, kept);
        assert_eq!(rt; saved(&mut store, "a", b"later"), Err(SaveFault::Failed));
        assert!(rt; holds(&store, "a", front));
    }
    assert_eq!(rt; saved(&mut store, "c", b"last"), Ok(()));
    assert!(rt; holds(&store, "a", b"later"));
    assert!(rt; holds(&store, "b", b"other"));
    assert!(rt; holds(&store, "c", b"last"));
    assert_eq!(rt; store.saves(), 6);
    assert_eq!(rt; store.loads(), 0);
    Ok(())
}

#[test]
fn a_sink_in_memory_takes_what_fits(rt: HostRuntime) -> Result<(), Fail> {
    let mut sink = MemorySink::with_room(rt.alloc(), 7)?;
    sink.fail_write(2, 1);
    assert_eq!(rt; sink.write(b"abc"), Ok(()));
    assert_eq!(rt; sink.write(b"de"), Err(SinkFault::Failed));
    assert_eq!(rt; sink.written(), b"abcd".as_slice());
    assert_eq!(rt; sink.write(b"efgh"), Err(SinkFault::Failed));
    assert_eq!(rt; sink.written(), b"abcdefg".as_slice());
    Ok(())
}

#[test]
fn a_file_that_is_there_is_loaded(rt: HostRuntime) -> Result<(), Fail> {
    let mut file = fs::create(&rt, "kept")?;
    assert_eq!(rt; file.write(b"some bytes")?, 10);
    drop(file);
    let mut store = FileStore::new(&rt, rt.alloc());
    let bytes = store.load(rt.alloc(), "kept").ok().ok_or("there")?;
    assert_eq!(rt; bytes.as_slice(), b"some bytes".as_slice());
    fs::remove_file(&rt, "kept")?;
    Ok(())
}

#[test]
fn a_file_that_is_saved_is_loaded(rt: HostRuntime) -> Result<(), Fail> {
    let mut store = FileStore::new(&rt, rt.alloc());
    let long = vec![in rt.alloc(); b'x'; 150_000]?;
    for bytes in [long.as_slice(), b"short", b""] {
        assert_eq!(rt; store.save("saved", bytes), Ok(()));
        let again = store.load(rt.alloc(), "saved").ok().ok_or("there")?;
        assert_eq!(rt; again.as_slice(), bytes);
    }
    fs::remove_file(&rt, "saved")?;
    assert_eq!(rt; store.save("none/saved", b"bytes"), Err(SaveFault::Failed));
    Ok(())
}

#[test]
fn a_file_that_is_not_there_fails(rt: HostRuntime) {
    let mut store = FileStore::new(&rt, rt.alloc());
    assert_eq!(rt;
        store.load(rt.alloc(), "none").err(),
        Some(LoadFault::Failed)
    );
}

// An output that takes so many bytes a write, and none from the third write on.
#[derive(Drop)]
struct Tired {
    most: usize,
    writes: Cell<u64>,
}

impl Print for Tired {
    fn print<D: Display + Drop>(&self, _value: D) -> io::Result<()> {
        Ok(())
    }

    fn println<D: Display + Drop>(&self, _value: D) -> io::Result<()> {
        Ok(())
    }

    fn write_all(&self, _bytes: &[u8]) -> io::Result<()> {
        Ok(())
    }

    fn write_some(&self, bytes: &[u8]) -> io::Result<usize> {
        self.writes.set(self.writes.get().saturating_add(1));
        if self.writes.get() > 2 {
            return Ok(0);
        }
        Ok(bytes.len().min(self.most))
    }
}

#[test]
fn an_output_that_takes_nothing_is_a_fault(rt: HostRuntime) {
    let tired = Tired {
        most: 3,
        writes: Cell::new(0),
    };
    let mut sink = StdSink::new(&tired);
    assert_eq!(rt; sink.write(b"abcdef"), Ok(()));
    assert_eq!(rt; sink.write(b""), Ok(()));
    assert_eq!(rt; sink.write(b"g"), Err(SinkFault::Failed));
}

#[test]
fn standard_output_takes_a_line(rt: HostRuntime) {
    let mut sink = StdSink::new(&rt);
    assert_eq!(rt; sink.write(b"a line\n"), Ok(()));
}
