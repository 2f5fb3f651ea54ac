//! The calls from a text to its HTML: those of `doc_lines`, `doc_blocks_starts`, `doc_refs`, `doc_blocks`, `doc_inlines`,
//! `doc_html_anchors` and `doc_html`, and those of `doc_page` on texts and pages. A page is printed on several lines.

mod hides;
mod of_anchors;
mod of_blocks;
mod of_filling;
mod of_html;
mod of_inlines;
mod of_lines;
mod of_pages;
mod of_refs;
mod of_scanners;
mod of_starts;
mod printed;
mod tools;

use doc_lines::entities::Entities;
use doc_page_parts::failure::Memory;
use doc_page_parts::heap::{Heap, String};
use std::io;
use tools::Tools;
use trial::run::{Calls, run_lines};

#[derive(Drop)]
struct TextCalls {
    entities: Entities,
}

impl Calls for TextCalls {
    fn called(&mut self, heap: Heap, name: &str, given: &str) -> Result<String, Memory> {
        let tools = Tools {
            heap,
            entities: &self.entities,
        };
        of_lines::called(tools, name, given)
    }
}

/// Prints what the lines answer.
pub fn run_texts<P: AllocGlobal + Print>(rt: &P, lines: &str) -> io::Result<()> {
    let mut calls = TextCalls {
        entities: Entities::built_in(),
    };
    let ran = run_lines(rt, lines, &mut calls);
    drop(calls);
    ran
}
