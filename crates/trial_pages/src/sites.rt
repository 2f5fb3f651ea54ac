//! What stands between a page and the hub: references, the store, the readers, words, the indexes and what they
//! answer, and the cache. The calls share one site, one table of readers, one index of pages by key and one cache, which begin empty.
//! `digest CALL ; CALL ..` answers as [`digest::digested`] says, and `last CALL ; CALL ..` what the last call does.

mod call;
mod counting;
mod digest;
mod given;
mod indexes;
mod of_answers;
mod of_cache;
mod of_keys;
mod of_links;
mod of_paths;
mod of_postings;
mod of_readers;
mod of_references;
mod of_site;
mod of_words;
mod page;
mod stop;

use call::called;
use digest::{digested, last_of};
use doc_page_parts::failure::Memory;
use doc_page_parts::heap::{Heap, String};
use given::Trial;
use std::io;
use stop::Stop;
use trial::answer::no_call;
use trial::run::{Calls, run_lines};

/// Prints what the lines answer.
pub fn run_sites<P: AllocGlobal + Print>(rt: &P, lines: &str) -> io::Result<()> {
    match Trial::new(rt.alloc()) {
        Ok(mut trial) => {
            let ran = run_lines(rt, lines, &mut trial);
            drop(trial);
            ran
        }
        Err(_) => println!(rt; "no memory for the trial"),
    }
}

impl Calls for Trial {
    fn called(&mut self, heap: Heap, name: &str, given: &str) -> Result<String, Memory> {
        // Made before the call, so that a refusal is told even where no memory is left.
        let refusal = String::from_str(heap, "Err(Memory)")?;
        let told = match answer(self, name, given) {
            Err(Stop::Refused) => return Ok(refusal),
            Ok(answer) => Ok(answer),
            Err(Stop::NoCall) => no_call(heap),
            Err(Stop::Memory) => Err(Memory),
        };
        drop(refusal);
        told
    }
}

/// What a call answers.
fn answer(trial: &mut Trial, name: &str, given: &str) -> Result<String, Stop> {
    match name {
        "digest" => digested(trial, given),
        "last" => last_of(trial, given),
        _ => called(trial, name, given),
    }
}
