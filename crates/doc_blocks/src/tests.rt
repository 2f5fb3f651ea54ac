use crate::block::Block;
use crate::document::blocks;
use doc_lines::entities::Entities;
use doc_lines::options::Options;
use std::test::Fail;

/// A paragraph before a table, and a row that would underline a heading (GitHub Flavored Markdown 0.29, section 4.10).
#[test]
fn a_table(rt: HostRuntime) -> Result<(), Fail> {
    let options = Options {
        tables: true,
        strikethrough: false,
        tasks: false,
        bare_links: false,
        images: false,
    };
    let entities = Entities::built_in().with_options(options);
    let document = blocks(rt.alloc(), "text\n| a |\n|---|\n===\n", &entities)?;
    assert!(rt; document.blocks.len() == 2);
    let Block::Para(before) = &document.blocks[0] else {
        assert!(rt; false);
        return Ok(());
    };
    assert!(rt; before.get() == "text");
    let Block::Table {
        header,
        delimiters,
        rows,
    } = &document.blocks[1]
    else {
        assert!(rt; false);
        return Ok(());
    };
    assert!(rt; header.get() == "| a |");
    assert!(rt; delimiters.get() == "|---|");
    let Some(rows) = rows else {
        assert!(rt; false);
        return Ok(());
    };
    assert!(rt; rows.get() == "===");
    Ok(())
}
