//! What isn't understood of the arguments.

use crate::shown_word::ShownWord;
use std::fmt;

/// What isn't understood of the arguments. It is printed as `usage`, and but for `Command` with a line above it. Of several faults it is
/// the first by the order of the words, and `JournalAndFollow` only where there is no other.
#[derive(Clone, Copy, Debug, PartialEq, Eq)]
pub enum UsageFault<'a> {
    /// No command, or not the words that it wants.
    Command,
    /// ADDR of `listen` or of `--status` is none.
    Address,
    /// This word is no option of the command.
    UnknownOption(&'a str),
    /// No file stands behind this option.
    NeedsFile(&'a str),
    /// No address stands behind this option.
    NeedsAddress(&'a str),
    /// Behind `--watch` stands no number from 1 to 3,600.
    NeedsSeconds,
    /// No names of groups stand behind `--groups`.
    NeedsGroups,
    /// This option stands before already.
    StandsTwice(&'a str),
    /// `--journal` and `--follow` both stand.
    JournalAndFollow,
}

impl fmt::Display for UsageFault<'_> {
    ghost use Rattle.std.specs.Prelude.{Some};
    ghost use Rattle.doc_server_arguments.specs.Usage.{fault_shown, usage_text};

    /// A line behind the first has the program's name before it, as whoever prints this puts it before the first.
    ghost output = { λ fault. Some (usage_text (fault_shown fault)) };

    fn fmt<W: fmt::Write>(&self, f: &mut fmt::Formatter<W>) -> fmt::Result {
        match self {
            UsageFault::Command => f.write_str("usage"),
            UsageFault::Address => f.write_str(
                "ADDR is an IP address or localhost, and a port: 127.0.0.1:8080\ndocs_server: usage",
            ),
            UsageFault::UnknownOption(word) => {
                let word = ShownWord::new(word);
                write!(f, "unknown option: {word}\ndocs_server: usage")
            }
            UsageFault::NeedsFile(word) => {
                let word = ShownWord::new(word);
                write!(f, "{word} needs a file\ndocs_server: usage")
            }
            UsageFault::NeedsAddress(word) => {
                let word = ShownWord::new(word);
                write!(f, "{word} needs an address\ndocs_server: usage")
            }
            UsageFault::NeedsSeconds => {
                f.write_str("--watch needs seconds: 1 to 3600\ndocs_server: usage")
            }
            UsageFault::NeedsGroups => {
                f.write_str("--groups needs names of groups: a,b\ndocs_server: usage")
            }
            UsageFault::StandsTwice(word) => {
                let word = ShownWord::new(word);
                write!(f, "{word} stands twice\ndocs_server: usage")
            }
            UsageFault::JournalAndFollow => {
                f.write_str("--journal and --follow exclude each other\ndocs_server: usage")
            }
        }
    }
}
