//! The paragraphs of a plain text.

ghost use Rattle.std.specs.Prelude.{◌≡◌, ◌++◌, ◌∷◌, [], List as Seq, ℕ, map, false, All, string_bytes, IfOk, OnOk};
ghost use Rattle.std.specs.Option.{option_to_list};
ghost use Rattle.doc_page_parts.specs.Pages.{is_empty};
ghost use Rattle.doc_page.specs.ParagraphSteps.{lines_after};
ghost use Rattle.doc_page.specs.Plain.{paragraphs, plain_texts};

use doc_page_parts::failure::Memory;
use doc_page_parts::heap::{Heap, String, Vec};
use doc_page_parts::lines::Lines;
use doc_page_parts::text::Text;
use doc_page_parts::trimming::{stripped, without_ending};

/// The paragraphs, in order, not escaped.
pub fn plain_texts(heap: Heap, text: &str) -> Result<Vec<Text>, Memory>
    ensures { IfOk result (λ texts. texts.items ≡ plain_texts text.now) }
{
    let mut texts = Vec::new(heap);
    let mut run = Vec::new(heap);
    for line in Lines::new(text) {
        add_line(heap, &mut texts, &mut run, stripped(without_ending(line)))?;
    }
    end_run(heap, &mut texts, &mut run)?;
    Ok(texts)
}

/// Adds a stripped line to the open run, or ends the run at an empty one.
fn add_line<'a>(
    heap: Heap,
    texts: &mut Vec<Text>,
    run: &mut Vec<&'a str>,
    line: &'a str,
) -> Result<(), Memory>
    requires { All (λ l. is_empty l ≡ false) (map (λ l. l.now) run.old.items) }
    ensures full { All (λ l. is_empty l ≡ false) (map (λ l. l.now) run.new.items) }
    ensures told { OnOk result ((rest : Seq (Seq ℕ)) →
        texts.new.items ++ paragraphs (map (λ l. l.now) run.new.items ++ rest)
        ≡ texts.old.items ++ paragraphs (map (λ l. l.now) run.old.items ++ line.entry.now ∷ rest)) }
{
    if line.is_empty() {
        end_run(heap, texts, run)
    } else {
        run.push(line)?;
        Ok(())
    }
}

/// Ends the open run, where there is one.
fn end_run<'a>(heap: Heap, texts: &mut Vec<Text>, run: &mut Vec<&'a str>) -> Result<(), Memory>
    requires { All (λ l. is_empty l ≡ false) (map (λ l. l.now) run.old.items) }
    ensures empty { OnOk result (run.new.items ≡ []) }
    ensures full { All (λ l. is_empty l ≡ false) (map (λ l. l.now) run.new.items) }
    ensures told { OnOk result
        (texts.new.items ≡ texts.old.items ++ paragraphs (map (λ l. l.now) run.old.items)) }
{
    if let Some(text) = paragraph(heap, run)? {
        texts.push(text)?;
    }
    run.clear();
    Ok(())
}

/// The paragraph of a run, where there is one.
fn paragraph(heap: Heap, run: &[&str]) -> Result<Option<Text>, Memory>
    requires { All (λ l. is_empty l ≡ false) (map (λ l. l.now) run.now) }
    ensures { IfOk result (λ text. paragraphs (map (λ l. l.now) run.now) ≡ option_to_list text) }
{
    let Some((first, others)) = run.split_first() else {
        return Ok(None);
    };
    let mut out = String::with_capacity(heap, room_of(run))?;
    out.push_str(first)?;
    push_lines(&mut out, others)?;
    Ok(Some(Text::new(out)))
}

/// How many bytes the lines of a run take, each with an LF: a guess, on which nothing rests.
fn room_of(run: &[&str]) -> usize {
    let mut room: usize = 0;
    for line in run {
        room = room.saturating_add(line.len()).saturating_add(1);
    }
    room
}

/// Writes the lines at the end, each after an LF.
#[tactic(auto, unfolding(crate::specs::ParagraphSteps::lines_after))]
fn push_lines(out: &mut String, lines: &[&str]) -> Result<(), Memory>
    ensures { OnOk result
        (string_bytes out.new ≡ string_bytes out.old ++ lines_after (map (λ l. l.now) lines.now)) }
{
    for line in lines {
        out.push('\n')?;
        out.push_str(line)?;
    }
    Ok(())
}
