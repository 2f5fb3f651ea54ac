//! A reference, resolved.

ghost use Rattle.std.specs.Prelude.{◌≡◌, ◌++◌, ◌∷◌, map, string_bytes, option_copied, codes, [], IfOk, OnOk};
ghost use Rattle.std.specs.List.{flat_map, join_with_byte};
ghost use Rattle.doc_resolve.specs.Resolution.{uri_of_resolved, recomposed, part};

use doc_page_parts::failure::Memory;
use doc_page_parts::heap::{Heap, String, Vec};
use doc_page_parts::text::Text;

/// A reference, resolved on a base (RFC 3986, section 5.2). Its components are slices of the reference and of the base.
#[derive(Drop)]
pub struct Resolved<'a> {
    pub scheme: Option<&'a str>,
    pub authority: Option<&'a str>,
    /// The path's segments, which `/` parts: of an empty path one, which is empty.
    pub path: Vec<&'a str>,
    pub query: Option<&'a str>,
    pub fragment: Option<&'a str>,
}

impl<'a> Resolved<'a> {
    /// The text that its components make (RFC 3986, section 5.3).
    #[tactic(auto, unfolding(crate::specs::Resolution::recomposed))]
    pub fn text(&self, heap: Heap) -> Result<Text, Memory>
        ensures { IfOk result (λ text. text ≡ recomposed (uri_of_resolved self.now)) }
    {
        let mut out = String::new(heap);
        push_part(&mut out, "", self.scheme, ":")?;
        push_part(&mut out, "//", self.authority, "")?;
        push_path(&mut out, &self.path)?;
        push_part(&mut out, "?", self.query, "")?;
        push_part(&mut out, "#", self.fragment, "")?;
        Ok(Text::new(out))
    }
}

/// Writes a component between its marks, where it is there.
fn push_part(
    out: &mut String,
    front: &str,
    component: Option<&str>,
    back: &str,
) -> Result<(), Memory>
    ensures { OnOk result
        (string_bytes out.new ≡ string_bytes out.old
        ++ part front.now (option_copied component.entry) back.now) }
{
    let Some(text) = component else {
        return Ok(());
    };
    out.push_str(front)?;
    out.push_str(text)?;
    out.push_str(back)?;
    Ok(())
}

/// Writes the segments, with `/` between them.
fn push_path(out: &mut String, path: &[&str]) -> Result<(), Memory>
    ensures { OnOk result
        (string_bytes out.new ≡ string_bytes out.old
        ++ join_with_byte 47 (map (λ s. s.now) path.now)) }
{
    let Some((first, others)) = path.split_first() else {
        return Ok(());
    };
    out.push_str(first)?;
    push_others(out, others)?;
    Ok(())
}

/// Writes the segments, each after a `/`.
fn push_others(out: &mut String, segments: &[&str]) -> Result<(), Memory>
    ensures { OnOk result
        (string_bytes out.new ≡ string_bytes out.old
        ++ flat_map (λ s. 47 ∷ s) (map (λ s. s.now) segments.now)) }
{
    for segment in segments {
        out.push('/')?;
        out.push_str(segment)?;
    }
    Ok(())
}
