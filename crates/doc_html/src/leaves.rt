//! Leaf blocks as HTML (CommonMark 0.31.2, section 4; tasks: GitHub Flavored Markdown 0.29, section 5.3).
ghost use Rattle.std.specs.Prelude.{◌≡◌, ℕ, [], ◌∷◌, ◌++◌, List, chars, codes, decimal, Bool, true, not, OnOk};
ghost use Rattle.doc_rules.specs.Blocks.{Heading, IndentedCode, FencedCode, HtmlBlock, ThematicBreak};
ghost use Rattle.doc_rules.specs.Characters.{is_space_or_tab, strip_front};
ghost use Rattle.doc_rules.specs.Definitions.{Definition};
ghost use Rattle.doc_rules.specs.Rules.{Rules};
ghost use Rattle.doc_rules.specs.Escaping.{html_escape};
ghost use Rattle.doc_rules.specs.Html.{characters, class_attribute, first_word, language_class, task_box};
ghost use Rattle.doc_refs_parts.specs.Targets.{targets_of};
ghost use Rattle.doc_blocks_starts.specs.Tags.{leaf_shown};
ghost use Rattle.doc_html.specs.ProgressSteps.{Goes, Writes};
ghost use Rattle.doc_html.specs.InlineSteps.{is_ascii};
ghost use Rattle.doc_html.specs.TellingSteps.{leaf_told, code_told, text_told};

use crate::inlines::push_marks;
use crate::reading::Source;
use crate::tables::push_table;
use crate::writer::{Writer, markup};
use doc_blocks_starts::tag::LeafBlock;
use doc_inlines::Reader;
use doc_lines::scan::character::next_char;
use doc_lines::scan::front::front;
use doc_lines::scan::run::many;
use doc_lines::scan::white_space::is_space_or_tab;
use doc_page_parts::failure::Memory;
use doc_page_parts::heap::Heap;

/// Writes a leaf block, which stands directly in an item of a tight list or not.
#[tactic(auto, unfolding(doc_blocks_starts::specs::Tags::leaf_shown, crate::specs::TellingSteps::leaf_told))]
pub(crate) fn push_leaf<'d, W: Writer>(
    writer: &mut W,
    source: &Source<'d>,
    reader: &mut Reader<'d, 'd>,
    leaf: LeafBlock<'d>,
    tight: bool,
) -> Result<(), Memory>
    ensures { (definitions : List Definition) → source.now.refs.now ≡ targets_of definitions →
        OnOk result (Goes W.holds writer.old writer.new
        (leaf_told source.now.entities.now definitions tight (leaf_shown leaf.entry))) }
{
    match leaf {
        LeafBlock::Para(text) => push_paragraph(writer, source, reader, "", text, tight),
        LeafBlock::Heading { level, text } => push_heading(writer, source, reader, level, text),
        LeafBlock::Code(text) => push_indented(writer, text),
        LeafBlock::Fence { info, text } => push_fenced(writer, info, text),
        LeafBlock::Html(text) => push_html_block(writer, text),
        LeafBlock::Break => push_break(writer),
        LeafBlock::Table(lines) => push_table(writer, source, reader, lines),
        LeafBlock::Task { done, text } => {
            push_paragraph(writer, source, reader, task_box(done), text, tight)
        }
    }
}

/// The box before the text of a task (GitHub Flavored Markdown 0.29, section 5.3).
#[tactic(auto, unfolding(doc_rules::specs::Html::task_box))]
fn task_box(done: bool) -> &'static str
    ensures value { result.now ≡ task_box done }
    ensures ascii { is_ascii result.now ≡ true }
{
    if done {
        "<input type=\"checkbox\" checked=\"\" disabled=\"\" /> "
    } else {
        "<input type=\"checkbox\" disabled=\"\" /> "
    }
}

/// Writes a paragraph, and this before its text. Directly in an item of a tight list that is all of it (section 5.3).
fn push_paragraph<'d, W: Writer>(
    writer: &mut W,
    source: &Source<'d>,
    reader: &mut Reader<'d, 'd>,
    front: &str,
    text: &'d str,
    tight: bool,
) -> Result<(), Memory>
    requires { is_ascii front.now ≡ true }
    ensures { (definitions : List Definition) → source.now.refs.now ≡ targets_of definitions →
        OnOk result (Goes W.holds writer.old writer.new
        (text_told source.now.entities.now definitions tight front.now (chars text.now))) }
{
    reader.read(source.heap, source.entities, source.refs, text)?;
    let marks = reader.marks();
    writer.meet_paragraph(marks)?;
    if tight {
        push_front(writer, front)?;
        push_marks(writer, source.heap, marks)?;
        return Ok(());
    }
    writer.new_line()?;
    markup(writer, "<p>")?;
    push_front(writer, front)?;
    push_marks(writer, source.heap, marks)?;
    markup(writer, "</p>\n")?;
    Ok(())
}

/// Writes what stands before a paragraph's text, if anything does.
fn push_front<W: Writer>(writer: &mut W, front: &str) -> Result<(), Memory>
    requires { is_ascii front.now ≡ true }
    ensures { OnOk result (Writes W.holds writer.old writer.new (characters front.now)) }
{
    if front.is_empty() {
        return Ok(());
    }
    markup(writer, front)
}

/// Writes a heading.
fn push_heading<'d, W: Writer>(
    writer: &mut W,
    source: &Source<'d>,
    reader: &mut Reader<'d, 'd>,
    level: u8,
    text: &'d str,
) -> Result<(), Memory>
    ensures { (definitions : List Definition) (tight : Bool)
        → source.now.refs.now ≡ targets_of definitions →
        OnOk result (Goes W.holds writer.old writer.new
        (leaf_told source.now.entities.now definitions tight (Heading level (chars text.now)))) }
{
    reader.read(source.heap, source.entities, source.refs, text)?;
    let marks = reader.marks();
    writer.new_line()?;
    markup(writer, "<h")?;
    push_level(writer, source.heap, level)?;
    writer.meet_heading(level, marks)?;
    markup(writer, ">")?;
    push_marks(writer, source.heap, marks)?;
    markup(writer, "</h")?;
    push_level(writer, source.heap, level)?;
    markup(writer, ">\n")?;
    Ok(())
}

fn push_level<W: Writer>(writer: &mut W, heap: Heap, level: u8) -> Result<(), Memory>
    ensures { OnOk result (Writes W.holds writer.old writer.new (characters (decimal level))) }
{
    match level {
        1 => markup(writer, "1"),
        2 => markup(writer, "2"),
        3 => markup(writer, "3"),
        4 => markup(writer, "4"),
        5 => markup(writer, "5"),
        6 => markup(writer, "6"),
        _ => push_decimal(writer, heap, u32::from(level)),
    }
}

/// Writes a number.
pub(crate) fn push_decimal<W: Writer>(writer: &mut W, heap: Heap, n: u32) -> Result<(), Memory>
    ensures { OnOk result (Writes W.holds writer.old writer.new (characters (decimal n))) }
{
    let digits = format!(in heap; "{n}")?;
    writer.text(digits.as_str())?;
    Ok(())
}

/// Writes indented code.
fn push_indented<W: Writer>(writer: &mut W, text: &str) -> Result<(), Memory>
    ensures { OnOk result (Goes W.holds writer.old writer.new (code_told [] (chars text.now))) }
{
    writer.meet_text(text)?;
    writer.new_line()?;
    markup(writer, "<pre><code")?;
    push_content(writer, text)?;
    Ok(())
}

/// Writes fenced code.
fn push_fenced<W: Writer>(writer: &mut W, info: &str, text: &str) -> Result<(), Memory>
    ensures { OnOk result (Goes W.holds writer.old writer.new
        (code_told (class_attribute (chars info.now)) (chars text.now))) }
{
    writer.meet_text(text)?;
    writer.new_line()?;
    markup(writer, "<pre><code")?;
    push_class(writer, first_word(info))?;
    push_content(writer, text)?;
    Ok(())
}

/// Writes the rest of a code block behind its attribute.
fn push_content<W: Writer>(writer: &mut W, text: &str) -> Result<(), Memory>
    ensures { OnOk result (Writes W.holds writer.old writer.new
        (characters (codes ">" ++ html_escape (chars text.now) ++ codes "</code></pre>\n"))) }
{
    markup(writer, ">")?;
    writer.escaped(text)?;
    markup(writer, "</code></pre>\n")?;
    Ok(())
}

/// Writes the class for a language, if there is one.
#[tactic(auto, unfolding(doc_rules::specs::Html::language_class))]
fn push_class<W: Writer>(writer: &mut W, word: &str) -> Result<(), Memory>
    ensures { OnOk result (Writes W.holds writer.old writer.new
        (characters (language_class (chars word.now)))) }
{
    let Some(_) = next_char(word) else {
        return Ok(());
    };
    markup(writer, " class=\"language-")?;
    writer.escaped(word)?;
    markup(writer, "\"")?;
    Ok(())
}

/// The first word of an info string.
fn first_word(info: &str) -> &str
    ensures { chars result.now ≡ first_word (strip_front is_space_or_tab (chars info.now)) }
{
    let start = many(info, is_space_or_tab);
    front(start, many(start, is_in_word))
}

fn is_in_word(c: char) -> bool
    ensures { result ≡ not (is_space_or_tab c) }
{
    !is_space_or_tab(c)
}

/// Writes an HTML block.
fn push_html_block<W: Writer>(writer: &mut W, text: &str) -> Result<(), Memory>
    ensures { (rules : Rules) (definitions : List Definition) (tight : Bool) →
        OnOk result (Goes W.holds writer.old writer.new
        (leaf_told rules definitions tight (HtmlBlock (chars text.now)))) }
{
    writer.new_line()?;
    writer.text(text)?;
    writer.new_line()?;
    Ok(())
}

/// Writes a thematic break.
fn push_break<W: Writer>(writer: &mut W) -> Result<(), Memory>
    ensures { (rules : Rules) (definitions : List Definition) (tight : Bool) →
        OnOk result (Goes W.holds writer.old writer.new
        (leaf_told rules definitions tight ThematicBreak)) }
{
    writer.new_line()?;
    markup(writer, "<hr />\n")?;
    Ok(())
}
