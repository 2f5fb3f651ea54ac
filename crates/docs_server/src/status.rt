//! The status that the program ends with.

use std::fmt::Display;

/// The status to end with. What stops the program is printed.
pub fn status_of<P: Eprint, F: Display + Drop>(rt: &P, ended: Result<u8, F>) -> u8 {
    match ended {
        Ok(status) => status,
        Err(fault) => {
            let _ = eprintln!(rt; "docs_server: {fault}");
            2
        }
    }
}
