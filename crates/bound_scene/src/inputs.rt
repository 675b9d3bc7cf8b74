ghost use Rattle.std.specs.Prelude.{◌≡◌, length, IfOk};
ghost use Rattle.rule_language.specs.Books.{IsBook};
ghost use Rattle.rule_language.specs.Tables.{IsTable};
ghost use Rattle.command_outcome.specs.declared.outcome.Role.TheVariants as role;
ghost use Rattle.command_outcome.specs.Outcome.{Refuses};
ghost use Rattle.command_outcome.specs.Ends.{Loads, shelf};
ghost use Rattle.bound_scene.specs.Inputs.{book_and_table, book_fault_text, book_input};
ghost use Rattle.bound_scene.specs.Inputs.{table_fault_text, table_input};

use command_outcome::{Role, Stop, load_bytes, refuse, refuse_at};
use outside_io::Store;
use rule_language::{Book, BookFault, Table, TableFault, read_book, read_table};
use std::alloc::Global;

/// The book under the name, in this role.
pub fn load_book<S: Store>(
    alloc: Global,
    store: &mut S,
    role: Role,
    name: &str,
) -> Result<Book, Stop>
    ensures loads { Loads (λ book. book) (book_input role name.now)
        (shelf S.held S.faults S.failed store.old)
        (shelf S.held S.faults S.failed store.new) result }
    ensures well_formed { IfOk result IsBook }
{
    let bytes = load_bytes(alloc, store, role, name)?;
    match read_book(alloc, bytes.as_slice()) {
        Ok(book) => Ok(book),
        Err(fault) => Err(refuse_book(alloc, role, fault)),
    }
}

// The table under the name, which has a number for each rule of the book.
fn load_table<S: Store>(
    alloc: Global,
    store: &mut S,
    name: &str,
    book: &Book,
) -> Result<Table, Stop>
    requires { IsBook book.now }
    ensures loads { Loads (λ table. table) (table_input book.now name.now)
        (shelf S.held S.faults S.failed store.old)
        (shelf S.held S.faults S.failed store.new) result }
    ensures well_formed { IfOk result (λ table. IsTable (length book.now.rules) table.rows) }
{
    let bytes = load_bytes(alloc, store, Role::Table, name)?;
    match read_table(alloc, bytes.as_slice(), book.rules.as_slice().len()) {
        Ok(table) => Ok(table),
        Err(fault) => Err(refuse_table(alloc, fault)),
    }
}

/// The book and its table.
pub fn load_book_and_table<S: Store>(
    alloc: Global,
    store: &mut S,
    book: &str,
    table: &str,
) -> Result<(Book, Table), Stop>
    ensures loads { Loads (λ both. both) (book_and_table book.now table.now)
        (shelf S.held S.faults S.failed store.old)
        (shelf S.held S.faults S.failed store.new) result }
    ensures well_formed { IfOk result (λ both. IsBook both.0
        × IsTable (length both.0.rules) both.1.rows) }
{
    let book = load_book(alloc, store, Role::Book, book)?;
    let table = load_table(alloc, store, table, &book)?;
    Ok((book, table))
}

// The refusal of a book in its role, or want of memory.
fn refuse_book(alloc: Global, role: Role, fault: BookFault) -> Stop
    ensures { Refuses role (book_fault_text fault) result }
{
    match fault {
        BookFault::NotUtf8 => refuse(alloc, role, "not-utf8"),
        BookFault::Syntax(line) => refuse_at(alloc, role, "syntax", line),
        BookFault::UnknownName(line) => refuse_at(alloc, role, "unknown-name", line),
        BookFault::DuplicateName(line) => refuse_at(alloc, role, "duplicate-name", line),
        BookFault::BadWeight(line) => refuse_at(alloc, role, "bad-weight", line),
        BookFault::TooManyRules(line) => refuse_at(alloc, role, "too-many-rules", line),
        BookFault::TooManyParts(line) => refuse_at(alloc, role, "too-many-parts", line),
        BookFault::NoRules => refuse(alloc, role, "no-rules"),
        BookFault::NoMemory => Stop::NoMemory,
    }
}

// The refusal of a table, or want of memory.
fn refuse_table(alloc: Global, fault: TableFault) -> Stop
    ensures { Refuses role.Table (table_fault_text fault) result }
{
    match fault {
        TableFault::NotUtf8 => refuse(alloc, Role::Table, "not-utf8"),
        TableFault::Syntax(line) => refuse_at(alloc, Role::Table, "syntax", line),
        TableFault::WrongWidth(line) => refuse_at(alloc, Role::Table, "wrong-width", line),
        TableFault::BadNumber(line) => refuse_at(alloc, Role::Table, "bad-number", line),
        TableFault::DuplicateName(line) => refuse_at(alloc, Role::Table, "duplicate-name", line),
        TableFault::TooManyRows(line) => refuse_at(alloc, Role::Table, "too-many-rows", line),
        TableFault::NoMemory => Stop::NoMemory,
    }
}
