//! What `--version` prints.

use std::fmt;

/// The version of the program. It is raised by hand with each change of a form or a text.
pub const VERSION: &str = "0.9.0";

/// The version of the program, and below it the forms of journals that it reads. It is printed without a line feed at its end.
#[derive(Clone, Copy, Debug, PartialEq, Eq)]
pub struct VersionLines;

impl fmt::Display for VersionLines {
    ghost use Rattle.std.specs.Prelude.{Some};
    ghost use Rattle.doc_server_arguments.specs.Versions.{version_lines};

    ghost output = { λ _. Some version_lines };

    fn fmt<W: fmt::Write>(&self, f: &mut fmt::Formatter<W>) -> fmt::Result {
        write!(
            f,
            "docs_server {VERSION}\njournal 2\njournal 1 (compact alone)"
        )
    }
}
