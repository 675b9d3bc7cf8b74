//! Exact lines of names and numbers, for what is printed.
//!
//! The layer above uses that each call appends just the bytes that `specs/Lines.antt` says.
#![tactic(auto)]

ghost use Rattle.std.specs.Prelude.{◌≡◌, ◌++◌, OnOk};
ghost use Rattle.text_lines.specs.Lines.{cell, cells, row_line, word};

use std::alloc::{AllocError, Global};

/// Appends a space and a word.
pub fn push_word(out: &mut Vec<u8>, text: &[u8]) -> Result<(), AllocError>
    ensures { OnOk result (out.new.items ≡ out.old.items ++ word text.now) }
{
    out.push(b' ')?;
    out.extend_from_slice(text)
}

/// Appends a space and a number.
pub fn push_cell(alloc: Global, out: &mut Vec<u8>, value: u64) -> Result<(), AllocError>
    ensures { OnOk result (out.new.items ≡ out.old.items ++ cell value) }
{
    let digits = value.to_string(alloc)?;
    push_word(out, digits.as_bytes())
}

/// Appends the line of a named vector.
pub fn push_row(
    alloc: Global,
    out: &mut Vec<u8>,
    name: &[u8],
    values: &[u64],
) -> Result<(), AllocError>
    ensures { OnOk result (out.new.items ≡ out.old.items ++ row_line name.now values.now) }
{
    out.extend_from_slice(name)?;
    for value in values {
        push_cell(alloc, out, *value)?;
    }
    out.push(b'\n')?;
    Ok(())
}
