//! The lines of a text.

ghost use Rattle.doc_lines.specs.Lines.{LinesAreLines};

pub use doc_page_parts::lines::Lines;

/// The characters of the lines of a text are the lines of its characters (CommonMark 0.31.2, section 2.1).
pub fn characters_of_lines_are_lines()
    ensures { LinesAreLines }
{}
