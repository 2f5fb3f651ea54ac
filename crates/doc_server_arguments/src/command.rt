//! What the arguments ask for.

use crate::log_form::LogForm;
use std::net::SocketAddr;

/// What the arguments ask for.
#[derive(Drop)]
pub enum Command<'a> {
    Demo,
    Render,
    /// The examples of the file of this name.
    Examples(&'a str),
    Check(Check<'a>),
    Replay(Replay<'a>),
    Serve(Serve<'a>),
    Listen(Listen<'a>),
    Compact(Compact<'a>),
    /// The folders of the configuration of this name.
    Folders(&'a str),
    Lint(Lint<'a>),
    Token(Token<'a>),
    /// The digest of the token on standard input.
    TokenHash,
    /// What the program is, and which journals it reads.
    Version,
    /// The commands, a line each.
    Help,
}

/// The report of a reader of a configured site.
#[derive(Drop)]
pub struct Check<'a> {
    /// The file of the configuration.
    pub config: &'a str,
    pub token: &'a str,
}

/// Events on a configured site.
#[derive(Drop)]
pub struct Replay<'a> {
    /// The file of the configuration.
    pub config: &'a str,
}

/// A configured site that is served.
#[derive(Drop)]
pub struct Serve<'a> {
    /// The file of the configuration.
    pub config: &'a str,
    /// The address as it is written, and what that means.
    pub written: &'a str,
    pub address: SocketAddr,
    /// How many connections are accepted.
    pub count: u32,
    /// How many passes go over them.
    pub turns: u32,
}

/// A configured site that is served until the program is told to stop.
#[derive(Drop)]
pub struct Listen<'a> {
    /// The file of the configuration.
    pub config: &'a str,
    /// The address as it is written, and what that means.
    pub written: &'a str,
    pub address: SocketAddr,
    /// The file of the journal, where there is one.
    pub journal: Option<&'a str>,
    /// The file of the journal that it follows, where it follows one: another server's. There is then no journal of its own.
    pub follow: Option<&'a str>,
    /// How each request is logged, where it is.
    pub log: Option<LogForm>,
    /// Where monitors are answered, if they are.
    pub status: Option<SocketAddr>,
    /// After how many seconds it is looked whether files have changed, if it is.
    pub watch: Option<u32>,
}

/// A journal that is written anew, of the site that its edits lead to.
#[derive(Drop)]
pub struct Compact<'a> {
    /// The file of the configuration.
    pub config: &'a str,
    /// The file of the journal.
    pub journal: &'a str,
}

/// What is wrong with a configuration, and with its journal.
#[derive(Drop)]
pub struct Lint<'a> {
    /// The file of the configuration.
    pub config: &'a str,
    /// The file of the journal, where there is one.
    pub journal: Option<&'a str>,
}

/// A token for a new reader.
#[derive(Drop)]
pub struct Token<'a> {
    /// The reader's name, as it is written. It may be none.
    pub name: &'a str,
    pub is_owner: bool,
    /// The names of the reader's groups, as they are written.
    pub groups: Option<&'a str>,
}
