//! How replies are written.

ghost use Rattle.std.specs.Prelude.{◌≡◌};
ghost use Rattle.doc_http_replies.specs.Heads.{undressed};
ghost use Rattle.doc_http_replies.specs.Manners.{dress_of};

/// How a reply is written, beside what it says.
#[derive(Clone, Copy)]
pub struct Manner<'a> {
    /// The head alone, as for HEAD.
    pub head_only: bool,
    /// Whether the connection closes after the reply.
    pub close: bool,
    /// Whether a page of HTML has a policy in its head, so that it runs no script.
    pub guarded: bool,
    /// Whether no shared cache keeps the reply.
    pub private: bool,
    /// The title of the site, where readers may sign in as browsers do.
    pub realm: Option<&'a str>,
}

impl Manner<'_> {
    /// The manner of a site without settings for people: nothing is added to any head.
    pub fn plain(head_only: bool, close: bool) -> Manner<'static>
        ensures dress { dress_of result ≡ undressed }
        ensures head_only { result.head_only ≡ head_only }
        ensures close { result.close ≡ close }
    {
        Manner {
            head_only,
            close,
            guarded: false,
            private: false,
            realm: None,
        }
    }
}
