//! What the HTML of the pages for editing may do (Content Security Policy Level 3, section 6).

/// Of the pages with the script: it runs, by its digest, and no other; it sends requests to the site alone.
pub const EDIT_POLICY: &str =
    "default-src 'none'; script-src 'sha256-65j0TbRbhYxiVu38xduGeTf0fk43y5XwlYmjb9oA0w8='; style-src 'self'; img-src 'self' https: data:; connect-src 'self'; form-action 'self'; base-uri 'none'; frame-ancestors 'none'";

/// Of a preview: no script of it runs, and no form of it sends anything.
pub const PREVIEW_POLICY: &str =
    "default-src 'none'; style-src 'self'; img-src 'self' https: data:; form-action 'none'; base-uri 'none'; frame-ancestors 'none'; sandbox";
