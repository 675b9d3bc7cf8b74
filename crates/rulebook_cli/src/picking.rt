ghost use Rattle.std.specs.Prelude.{◌≡◌, ◌<◌, length, All, IfOk};
ghost use Rattle.rule_language.specs.Books.{IsBook};
ghost use Rattle.rule_language.specs.Tables.{IsTable};
ghost use Rattle.command_outcome.specs.Ends.{Serves, shelf};
ghost use Rattle.rulebook_cli.specs.Pick.{IsPickText, kept_lines, pick_task};

use bound_scene::load_book_and_table;
use command_outcome::Stop;
use outside_io::Store;
use preorder::{NoMemory, Row};
use rule_language::Book;
use rulebook_commands::front_by;
use std::alloc::{AllocError, Global};
use text_lines::push_row;

// The lines of the rows at these places, or `none`.
fn kept_lines(alloc: Global, rows: &[Row], places: &[usize]) -> Result<Vec<u8>, AllocError>
    requires { All (λ i. i < length rows.now) places.now }
    ensures { IfOk result (λ text. text.items ≡ kept_lines rows.now places.now) }
{
    if places.is_empty() {
        return b"none\n".to_vec(alloc);
    }
    let mut text = Vec::new(alloc);
    for place in places {
        let row = &rows[*place];
        push_row(alloc, &mut text, row.name.as_slice(), row.values.as_slice())?;
    }
    Ok(text)
}

// The lines of the rows that no row beats, of equal ones the first.
fn pick_text(alloc: Global, book: &Book, rows: &[Row]) -> Result<Vec<u8>, NoMemory>
    requires book { IsBook book.now }
    requires rows { IsTable (length book.now.rules) rows.now }
    ensures { IfOk result (λ text. IsPickText book.now rows.now text.items) }
{
    let rules = book.order();
    let places = front_by(alloc, &rules, rows)?;
    let text = kept_lines(alloc, rows, places.as_slice())?;
    Ok(text)
}

/// What `pick BOOK TABLE` writes.
pub fn pick<S: Store>(
    alloc: Global,
    store: &mut S,
    book: &str,
    table: &str,
) -> Result<Vec<u8>, Stop>
    ensures { Serves (pick_task book.now table.now)
        (shelf S.held S.faults S.failed store.old)
        (shelf S.held S.faults S.failed store.new) result }
{
    let (book, table) = load_book_and_table(alloc, store, book, table)?;
    let text = pick_text(alloc, &book, table.rows.as_slice())?;
    Ok(text)
}
