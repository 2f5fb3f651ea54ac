//! Tries the calls below the hub, as `trial` says: first those from a text to its HTML (`texts`), and behind a line `sites` those of what
//! stands between a page and the hub (`sites`).
//!
//! A value that owns memory goes by a call of `drop`, once on each way, and a call's answer is handed on as it is: that is much cheaper
//! to prove than `?` where such a value is alive, and than what the end of a scope does, which is written out at each exit.
#![tactic(auto)]

mod sites;
mod texts;

use sites::run_sites;
use std::io;
use texts::run_texts;

fn main(rt: HostRuntime) -> io::Result<()> {
    let text = io::read_to_string(rt.alloc(), rt.reader())?;
    let ran = run(&rt, &text);
    drop(text);
    ran
}

/// Prints what the lines of texts answer, and then those of sites.
fn run<P: AllocGlobal + Print>(rt: &P, text: &str) -> io::Result<()> {
    let Some((texts, sites)) = text.split_once("\nsites\n") else {
        return run_texts(rt, text);
    };
    run_texts(rt, texts)?;
    println!(rt; "sites")?;
    run_sites(rt, sites)
}
