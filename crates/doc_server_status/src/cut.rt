//! Texts that are cut in two.

ghost use Rattle.std.specs.Prelude.{◌≡◌, ◌==◌, ◌<◌, IfSome, length, position};
ghost use Rattle.doc_server_status.specs.Cuts.{cut_at, parts_of};
ghost use Rattle.std.specs.Option.{option_map};

/// What stands before and behind a byte.
#[derive(Clone, Copy)]
pub struct Cut<'a> {
    pub front: &'a [u8],
    pub behind: &'a [u8],
}

/// The text cut at the first of these bytes, where it has one.
#[tactic(auto, unfolding(crate::specs::Cuts::cut_at))]
pub fn cut_at(byte: u8, text: &[u8]) -> Option<Cut<'_>>
    ensures { option_map parts_of result ≡ cut_at byte text.now }
{
    let Some(place) = place_of(byte, text) else {
        return None;
    };
    Some(Cut {
        front: &text[..place],
        behind: &text[place + 1..],
    })
}

/// The place of the first of these bytes.
fn place_of(byte: u8, text: &[u8]) -> Option<usize>
    ensures place { result ≡ position (λ b. b == byte) text.now }
    ensures within { IfSome result (λ place. place < length text.now) }
{
    text.iter().position(|other| *other == byte)
}
