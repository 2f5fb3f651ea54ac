//! Targets of links, for printing.

/// What a label names.
#[derive(Clone, Copy, Debug)]
pub struct Leads<'a> {
    pub dest: &'a str,
    pub title: Option<&'a str>,
}
