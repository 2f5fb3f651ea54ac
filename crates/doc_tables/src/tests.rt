use crate::cells::{Cells, next_cell};
use crate::columns::{begins_table, delimiter_columns};
use crate::lines::first_line;
use crate::table::{begins_behind, first_table, has_table};
use crate::unescaping::unescaped;
use doc_rules::alignment::Alignment;
use std::test::Fail;

/// By the rules of section 4.10: a cell with a `\|` is one cell, and colons align.
#[test]
fn columns(rt: HostRuntime) -> Result<(), Fail> {
    assert!(rt; begins_table("| a | b\\|c |", ":-|-:"));
    assert!(rt; !begins_table("a | b", "---"));
    let found = delimiter_columns(rt.alloc(), ":-|-:")?;
    let Some(columns) = found else {
        assert!(rt; false);
        return Ok(());
    };
    assert!(rt; columns.len() == 2);
    assert!(rt; columns[0] == Alignment::Left);
    assert!(rt; columns[1] == Alignment::Right);
    Ok(())
}

#[test]
fn a_cell(rt: HostRuntime) -> Result<(), Fail> {
    let Some((cell, rest)) = next_cell(Cells::of("| é\\|`b` \t|")) else {
        assert!(rt; false);
        return Ok(());
    };
    assert!(rt; cell.source == "é\\|`b`");
    assert!(rt; cell.is_escaped);
    let text = unescaped(rt.alloc(), cell.source)?;
    assert!(rt; text.get() == "é|`b`");
    assert!(rt; next_cell(rest).is_none());
    Ok(())
}

/// The lines before a table, its rows, and what one line more changes.
#[test]
fn a_table(rt: HostRuntime) -> Result<(), Fail> {
    let Some(found) = first_table("x\ny\n| a |\n|---|\n===\n|") else {
        assert!(rt; false);
        return Ok(());
    };
    assert!(rt; found.before == "x\ny");
    assert!(rt; found.header == "| a |");
    assert!(rt; found.delimiters == "|---|");
    let Some(rows) = found.rows else {
        assert!(rt; false);
        return Ok(());
    };
    let (first, rest) = first_line(rows);
    assert!(rt; first == "===");
    assert!(rt; rest == Some("|"));
    assert!(rt; !has_table("x\n| a |"));
    assert!(rt; begins_behind("x\n| a |", "|---|"));
    assert!(rt; !begins_behind("x\n| a | b |", "|---|"));
    Ok(())
}
