//! Books of rules and tables of violation vectors.
//!
//! The layer above uses that `read_book` and `read_table` answer what `specs/Books.antt` and
//! `specs/Tables.antt` say of the bytes, on both sides, that `read_book` of what `write_book` gives
//! is the same book, and that `Book::order` is the closure of the book's statements.
//! How a file of lines is read stands once, in `specs/LineFiles.antt`.
#![tactic(auto)]

mod book;
mod copying;
mod limits;
mod line_file;
mod named;
mod part;
mod table;
mod writing;

pub use book::{Book, BookFault, Rule, part_of, read_book};
pub use copying::{copy_book, copy_part, copy_rule};
pub use expressions::{Argument, Expr, ExprFault, read_expr};
pub use limits::{MAX_PARTS, MAX_ROWS, MAX_TABLE_VALUE, MAX_WEIGHT};
pub use line_file::{LineReader, cut_line, read_all};
pub use named::{Named, has_name};
pub use part::{Part, written_fits};
pub use table::{Table, TableFault, read_table};
pub use writing::{write_book, written_book_is_read, written_part_is_read};
