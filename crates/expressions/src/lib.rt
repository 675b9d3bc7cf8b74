//! Expressions over features: their trees, and their text both ways.
//!
//! The layer above uses that `read_expr` and `read_spelled` answer the tree whose text they are
//! given by the grammar of `specs/Grammar.antt`, on both sides, and that the text which `push_expr`
//! writes (`specs/Written.antt`) is read as the same tree.
#![tactic(auto)]

mod copy;
mod fault;
mod limits;
mod measure;
mod reader;
mod token;
mod tree;
mod writer;

pub use copy::copy_expr;
pub use fault::ExprFault;
pub use limits::{MAX_ARGUMENT_DIGITS, MAX_BRACKETS, MAX_CONSTANT, MAX_DIVISOR, MAX_LINE};
pub use measure::{decimal_len, nesting, written_len};
pub use reader::{one_tree, read_expr, read_spelled, reading_is_the_grammar};
pub use tree::{Argument, Expr};
pub use writer::{push_expr, written_is_text};
