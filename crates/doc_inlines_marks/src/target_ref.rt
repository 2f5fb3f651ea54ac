//! What links name, as it stands.
ghost use Rattle.std.specs.Prelude.{◌≡◌, ◌++◌, chars, option_map, IfOk};
ghost use Rattle.doc_rules.specs.Destinations.{destination_value, title_value};
ghost use Rattle.doc_refs_parts.specs.Sources.{text_shown};
ghost use Rattle.doc_refs_parts.specs.Targets.{target_shown};
ghost use Rattle.doc_inlines_marks.specs.Targets.{named, read_of};

use crate::unescaped::{Unescaped, without_escapes};
use doc_lines::entities::Entities;
use doc_lines::pushing::push_text;
use doc_lines::scan::character::is;
use doc_page_parts::failure::Memory;
use doc_page_parts::heap::{Heap, String};
use doc_page_parts::text::Text;
use doc_refs::scan::inside::inside;
use doc_refs::{Target, title_value};

/// Where a link leads, and its title (CommonMark 0.31.2, section 6.3), as they stand somewhere. They are read where they are asked for.
#[derive(Clone, Copy)]
pub enum TargetRef<'t, 'r> {
    /// A destination and a title with what they stand in, and the table by which their references are read.
    Written {
        dest: &'t str,
        title: Option<&'t str>,
        entities: &'r Entities,
    },
    /// The target of a definition.
    Defined(&'r Target),
    /// An address behind a scheme, as an autolink has it (section 6.5).
    Address {
        scheme: &'static str,
        address: &'t str,
    },
}

impl<'a> TargetRef<'a, 'a> {
    /// Where the link leads.
    #[tactic(auto, unfolding(crate::specs::Targets::named))]
    pub fn dest(self, heap: Heap) -> Result<Unescaped<'a>, Memory>
        ensures { IfOk result (λ dest. read_of dest ≡ (named self.entry).dest) }
    {
        match self {
            TargetRef::Written {
                dest,
                title: _,
                entities,
            } => read_destination(heap, dest, entities),
            TargetRef::Defined(target) => Ok(Unescaped::AsItStands(target.dest.get())),
            TargetRef::Address { scheme, address } => behind_scheme(heap, scheme, address),
        }
    }

    /// The title, where there is one.
    #[tactic(auto, unfolding(crate::specs::Targets::named))]
    pub fn title(self, heap: Heap) -> Result<Option<Text>, Memory>
        ensures { IfOk result (λ title. option_map chars title ≡ (named self.entry).title) }
    {
        match self {
            TargetRef::Written {
                dest: _,
                title,
                entities,
            } => read_title(heap, title, entities),
            TargetRef::Defined(target) => copy_title(heap, &target.title),
            TargetRef::Address { .. } => Ok(None),
        }
    }

    /// Both, on their own.
    pub fn to_target(self, heap: Heap) -> Result<Target, Memory>
        ensures { IfOk result (λ target. target_shown target ≡ named self.entry) }
    {
        let dest = self.dest(heap)?.into_text(heap)?;
        let title = self.title(heap)?;
        Ok(Target { dest, title })
    }
}

/// Where a destination leads that stands as this, with its `<` and `>` if it has them.
#[tactic(auto, unfolding(doc_rules::specs::Destinations::destination_value))]
fn read_destination<'t>(
    heap: Heap,
    source: &'t str,
    entities: &Entities,
) -> Result<Unescaped<'t>, Memory>
    ensures { IfOk result (λ dest. read_of dest
        ≡ destination_value entities.now (chars source.now)) }
{
    match is(source, '<') {
        Some(_) => without_escapes(heap, inside(source), entities),
        None => without_escapes(heap, source, entities),
    }
}

/// The title that stands as this, with its quotes or parentheses.
fn read_title(heap: Heap, source: Option<&str>, entities: &Entities) -> Result<Option<Text>, Memory>
    ensures { IfOk result (λ title. option_map chars title
        ≡ option_map (title_value entities.now) (text_shown source.entry)) }
{
    let Some(source) = source else {
        return Ok(None);
    };
    Ok(Some(title_value(heap, source, entities)?))
}

/// The same title again.
fn copy_title(heap: Heap, title: &Option<Text>) -> Result<Option<Text>, Memory>
    ensures { IfOk result (λ copy. option_map chars copy ≡ option_map chars title.now) }
{
    let Some(title) = title else {
        return Ok(None);
    };
    Ok(Some(title.copy(heap)?))
}

/// An address behind a scheme.
fn behind_scheme<'t>(heap: Heap, scheme: &str, address: &'t str) -> Result<Unescaped<'t>, Memory>
    ensures { IfOk result (λ dest. read_of dest ≡ chars scheme.now ++ chars address.now) }
{
    if scheme.is_empty() {
        return Ok(Unescaped::AsItStands(address));
    }
    let mut dest = String::from_str(heap, scheme)?;
    push_text(&mut dest, address)?;
    Ok(Unescaped::Read(Text::new(dest)))
}
