// The texts of the two programs that are derived of one that sums up: its own items as they stand, and what is added.

use crate::item_texts::{Head, ItemText, behind_blanks, item_texts};
use crate::sums::Sum;
use awk_lex::token::Token;
use std::alloc::{AllocError, Global};

/// The statement that prints a cell, up to the sum's name.
const PRINT_CELL: &[u8] = b"        printf \"%s\\n%s\\n%s\\n\", \"";

/// Adds the parts, one behind the other.
fn add(out: &mut Vec<u8>, parts: &[&[u8]]) -> Result<(), AllocError> {
    for part in parts {
        out.extend_from_slice(part)?;
    }
    Ok(())
}

/// Ends the last line.
fn end_line(out: &mut Vec<u8>) -> Result<(), AllocError> {
    if !out.is_empty() && !out.ends_with(b"\n") {
        out.push(b'\n')?;
    }
    Ok(())
}

/// Adds the statement that prints the cells of a sum.
fn add_print(out: &mut Vec<u8>, sum: &Sum) -> Result<(), AllocError> {
    let name = sum.name();
    match sum {
        Sum::ByKey(_) => add(
            out,
            &[
                b"    for (merge_key in ".as_slice(),
                name,
                b") {\n        if (index(merge_key, \"\\n\"))\n            exit 1\n",
                PRINT_CELL,
                name,
                b"\", merge_key, ",
                name,
                b"[merge_key]\n    }\n",
            ],
        ),
        Sum::Alone(_) => add(
            out,
            &[
                b"    if (".as_slice(),
                name,
                b" != \"\")\n",
                PRINT_CELL,
                name,
                b"\", \"\", ",
                name,
                b"\n",
            ],
        ),
    }
}

/// Adds the rule that reads the cells of a sum.
fn add_rule(out: &mut Vec<u8>, sum: &Sum) -> Result<(), AllocError> {
    let name = sum.name();
    let key: &[u8] = match sum {
        Sum::ByKey(_) => b"[merge_key]",
        Sum::Alone(_) => b"",
    };
    add(
        out,
        &[
            b"merge_what == \"".as_slice(),
            name,
            b"\" { ",
            name,
            key,
            b" += $0 }\n",
        ],
    )
}

/// Adds the text of an item, with a line of its own.
fn add_item(out: &mut Vec<u8>, text: &[u8], item: ItemText) -> Result<(), AllocError> {
    let start = behind_blanks(text, item.start);
    out.extend_from_slice(text.get(start..item.end).unwrap_or(b""))?;
    Ok(out.push(b'\n')?)
}

/// Adds the BEGIN items.
fn add_begins(out: &mut Vec<u8>, text: &[u8], items: &[ItemText]) -> Result<(), AllocError> {
    for item in items {
        if let Head::Begin = item.head {
            add_item(out, text, *item)?;
        }
    }
    Ok(())
}

/// Adds the END items.
fn add_ends(out: &mut Vec<u8>, text: &[u8], items: &[ItemText]) -> Result<(), AllocError> {
    for item in items {
        if let Head::End = item.head {
            add_item(out, text, *item)?;
        }
    }
    Ok(())
}

/// Adds the text without its END items.
fn add_without_ends(out: &mut Vec<u8>, text: &[u8], items: &[ItemText]) -> Result<(), AllocError> {
    let mut from = 0;
    for item in items {
        if let Head::End = item.head {
            out.extend_from_slice(text.get(from..item.start).unwrap_or(b""))?;
            from = item.rest;
        }
    }
    Ok(out.extend_from_slice(text.get(from..).unwrap_or(b""))?)
}

/// The text of the program for each piece of an input: that of a program, byte for byte but for its END
/// items, and behind it an END that prints these sums. The tokens are those of the text.
///
/// # Errors
///
/// Where memory is refused.
pub fn each_text(
    alloc: Global,
    text: &[u8],
    tokens: &[Token],
    sums: &[Sum],
) -> Result<Vec<u8>, AllocError> {
    let items = item_texts(alloc, text, tokens)?;
    let mut out = Vec::new(alloc);
    add_without_ends(&mut out, text, &items)?;
    end_line(&mut out)?;
    out.extend_from_slice(b"END {\n")?;
    for sum in sums {
        add_print(&mut out, sum)?;
    }
    out.extend_from_slice(b"}\n")?;
    Ok(out)
}

/// The text of the program for what that one printed on the pieces: a program's BEGIN items, rules that
/// add up these sums, and its END items. The tokens are those of the text.
///
/// # Errors
///
/// Where memory is refused.
pub fn all_text(
    alloc: Global,
    text: &[u8],
    tokens: &[Token],
    sums: &[Sum],
) -> Result<Vec<u8>, AllocError> {
    let items = item_texts(alloc, text, tokens)?;
    let mut out = Vec::new(alloc);
    add_begins(&mut out, text, &items)?;
    out.extend_from_slice(
        b"NR % 3 == 1 { merge_what = $0; next }\nNR % 3 == 2 { merge_key = $0; next }\n",
    )?;
    for sum in sums {
        add_rule(&mut out, sum)?;
    }
    add_ends(&mut out, text, &items)?;
    Ok(out)
}
