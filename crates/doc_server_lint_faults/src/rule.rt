//! The keys of a configuration's tables, each with the rule of its value, in the order in which their faults are told.

/// The form of a string.
#[derive(Clone, Copy)]
pub enum Form {
    Any,
    /// A bearer token (RFC 6750, section 2.1).
    Token,
    /// The SHA-256 of one (FIPS 180-4), 64 digits of `0-9` and `a-f`.
    Digest,
    /// The name of a reader.
    Name,
    /// The path of a page.
    PagePath,
    /// The text of a page, which has its bound.
    PageText,
    /// The title of a site.
    Title,
    /// A language (BCP 47, section 2.1).
    Language,
    /// The path of the page at the front.
    Home,
    /// The one way of signing in.
    Login,
    /// What becomes of front matter.
    Matter,
    /// What stands before names of files.
    Prefix,
    /// The name of a form of Unicode.
    Names,
    /// What becomes of bad files.
    OnBad,
}

/// What a key has to hold.
#[derive(Clone, Copy)]
pub enum Rule {
    Boolean,
    /// An integer from 1 to this.
    Integer(u32),
    /// A string of this form.
    Text(Form),
    /// The same, and the key has to be there. The other keys may be missing.
    Needed(Form),
    /// Names of groups.
    Groups,
    /// Names of folders in a folder.
    Except,
    /// Extensions of media, or all.
    Media,
    Table,
    /// An array of tables.
    Tables,
}

/// The keys of a document.
pub const TOP_KEYS: &[(&str, Rule)] = &[
    ("keep_alive", Rule::Boolean),
    ("cache", Rule::Integer(4_096)),
    ("entities", Rule::Text(Form::Any)),
    ("markdown", Rule::Table),
    ("reader", Rule::Tables),
    ("page", Rule::Tables),
    ("listen", Rule::Table),
    ("folder", Rule::Tables),
    ("browse", Rule::Table),
];

/// The keys of the table `markdown`.
pub const MARKDOWN_KEYS: &[(&str, Rule)] = &[
    ("skip_bom", Rule::Boolean),
    ("front_matter", Rule::Text(Form::Matter)),
    ("tables", Rule::Boolean),
    ("strikethrough", Rule::Boolean),
    ("tasks", Rule::Boolean),
    ("bare_links", Rule::Boolean),
    ("check_images", Rule::Boolean),
];

/// The keys of the table `listen`.
pub const LISTEN_KEYS: &[(&str, Rule)] = &[
    ("connections", Rule::Integer(65_535)),
    ("idle_seconds", Rule::Integer(86_400)),
    ("media_bytes", Rule::Integer(1_073_741_824)),
    ("stranger_seconds", Rule::Integer(86_400)),
    ("request_seconds", Rule::Integer(86_400)),
    ("follow_millis", Rule::Integer(10_000)),
];

/// The keys of the table `browse`.
pub const BROWSE_KEYS: &[(&str, Rule)] = &[
    ("title", Rule::Text(Form::Title)),
    ("language", Rule::Text(Form::Language)),
    ("home", Rule::Text(Form::Home)),
    ("guest", Rule::Groups),
    ("login", Rule::Text(Form::Login)),
    ("editing", Rule::Boolean),
];

/// The keys of a reader.
pub const READER_KEYS: &[(&str, Rule)] = &[
    ("token", Rule::Text(Form::Token)),
    ("token_sha256", Rule::Text(Form::Digest)),
    ("owner", Rule::Boolean),
    ("groups", Rule::Groups),
];

/// The keys that are known of a reader. Of the last a server alone reads, for its log.
pub const KNOWN_READER_KEYS: &[(&str, Rule)] = &[
    ("token", Rule::Text(Form::Token)),
    ("token_sha256", Rule::Text(Form::Digest)),
    ("owner", Rule::Boolean),
    ("groups", Rule::Groups),
    ("name", Rule::Text(Form::Name)),
];

/// The keys of a page.
pub const PAGE_KEYS: &[(&str, Rule)] = &[
    ("path", Rule::Needed(Form::PagePath)),
    ("groups", Rule::Groups),
    ("text", Rule::Text(Form::PageText)),
    ("file", Rule::Text(Form::Any)),
];

/// The keys of a folder.
pub(crate) const FOLDER_KEYS: &[(&str, Rule)] = &[
    ("path", Rule::Needed(Form::Any)),
    ("prefix", Rule::Text(Form::Prefix)),
    ("groups", Rule::Groups),
    ("except", Rule::Except),
    ("media", Rule::Media),
    ("names", Rule::Text(Form::Names)),
    ("readme", Rule::Boolean),
    ("on_bad", Rule::Text(Form::OnBad)),
];
