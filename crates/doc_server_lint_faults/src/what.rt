//! What is told of a place.

use doc_page_parts::text::Text;

/// What a key has to hold.
#[derive(Clone, Copy)]
pub enum Kind {
    Boolean,
    Text,
    /// An array of strings.
    Texts,
    /// An integer from 1 to this.
    Integer(u32),
    Table,
    /// An array of tables.
    Tables,
}

/// What is wrong, or may be meant otherwise. None of it holds a token, a bad one neither. Rows and lines are counted from 1.
#[derive(Drop)]
pub enum What {
    /// The key holds a value of another kind.
    MustBe(Kind),
    /// The key holds a value of the kind and not of the form.
    Bad,
    /// The key has to be there.
    Missing,
    /// No command knows the key. The one that may be meant is a known key.
    Unknown(Option<Text>),
    /// The key holds no bearer token (RFC 6750, section 2.1).
    NoToken,
    /// A reader has both `token` and `token_sha256`.
    TwoTokens,
    /// The reader of this number has the token.
    TokenOf(usize),
    /// The token has fewer than 22 characters.
    ShortToken,
    /// The token stands in clear text.
    ClearToken,
    /// The key holds a string that is no name of a reader.
    NoName,
    NoReaders,
    /// No reader is an owner.
    NoOwner,
    /// This text among the groups is the name of none.
    NoGroup(Text),
    /// There are more than 32 different groups.
    ManyGroups,
    /// No reader and no guest has this group.
    Unheld(Text),
    /// The key holds no path.
    NoPath,
    /// A page has neither `text` nor `file`.
    NoSource,
    /// It has both.
    TwoSources,
    /// Its text has more than 1,048,576 bytes.
    LongText,
    /// The page of this number has the path, and this one takes its place.
    Covers(usize),
    /// The site has more than 10,000 pages.
    ManyPages,
    /// The bytes of the configuration are no UTF-8.
    NotUtf8,
    /// A file can't be read: its name, and why.
    CannotRead(Text, Text),
    /// The page of this number has this path, which a folder gives too.
    PathOfPage(Text, usize),
    /// The folder of this number gives this path, which another one gives too.
    PathOfFolder(Text, usize),
    /// This line of the table of entities is bad.
    BadRow(usize),
    /// This line of it gives other characters to a name that is built in or stands in an earlier line.
    NameAgain(usize),
    /// The folder has no page.
    NoPage,
    /// An edit of the journal stands in the place of the page of this path.
    Edited(Text),
    /// What stops a server of its journal.
    Journal(Text),
}
