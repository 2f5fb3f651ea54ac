//! What the HTML of pages may do.

ghost use Rattle.std.specs.Prelude.{◌≡◌};
ghost use Rattle.doc_http_replies.specs.Heads.{policy};

/// What the HTML of a page may do which is only read (Content Security Policy Level 3, section 6): no script of it runs, and no form of it
/// sends anything out of the site.
#[tactic(auto, unfolding(crate::specs::Heads::policy))]
pub fn page_policy() -> &'static str
    ensures { result.now ≡ policy }
{
    "default-src 'none'; style-src 'self'; img-src 'self' https: data:; form-action 'self'; base-uri 'none'; frame-ancestors 'none'; sandbox allow-same-origin allow-forms allow-popups allow-popups-to-escape-sandbox allow-downloads"
}
