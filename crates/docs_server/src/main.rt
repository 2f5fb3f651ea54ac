//! The program `docs_server`: its arguments, the files that they name, and the commands of `doc_server`.
#![tactic(auto)]

mod access_log;
mod arguments;
mod catching_up;
mod changed;
mod commands;
mod compacting;
mod ended;
mod followed_journal;
mod following;
mod gathered;
mod growing_file;
mod held;
mod lint;
mod listen_fault;
mod listening;
mod looks;
mod made_pages;
mod monitor;
mod monitors;
mod named_device;
mod pause;
mod reading;
mod refusals;
mod reload_fault;
mod reloading;
mod reloading_in_steps;
mod serving;
mod shared;
mod sites;
mod stamp;
mod status;
mod system;
mod system_place;
mod token;
mod told_folders;
mod torn;
mod unanswered;
mod watching;

use crate::arguments::words_of;
use crate::commands::{run_demo, run_examples, run_render};
use crate::compacting::run_compact;
use crate::lint::run_lint;
use crate::listening::run_listen;
use crate::serving::run_serve;
use crate::sites::{run_check, run_replay};
use crate::status::status_of;
use crate::token::{run_token, run_token_hash};
use crate::told_folders::run_folders;
use doc_server_arguments::command::Command;
use doc_server_arguments::command_line::command_of;
use doc_server_arguments::help::HELP;
use doc_server_arguments::version::VersionLines;
use doc_server_streams::fault::Fault;
use std::fmt::Display;
use std::fs::File;
use std::marker::Brand;
use std::net::{Net, TcpListener, TcpStream};
use std::process::ExitCode;
use std::random::RandomSource;
use std::rt::{Clock, Env, Files};
use std::sync::ledger::Blank;

fn main(rt: HostRuntime) -> ExitCode {
    ExitCode::from(run(&rt))
}

/// Runs the command that the arguments ask for, and answers the status to end with.
fn run<R>(rt: &R) -> u8
where
    R: AllocGlobal
        + Clock
        + Clone
        + Drop
        + Env
        + Eprint
        + Files<File = File>
        + Input
        + Net<Listener = TcpListener, Stream = TcpStream>
        + Print
        + RandomSource,
{
    let words = match words_of(rt, rt.alloc()) {
        Ok(words) => words,
        Err(fault) => return status_of::<R, Fault>(rt, Err(fault)),
    };
    match command_of(&words) {
        Ok(command) => status_of(rt, run_command(rt, command)),
        Err(fault) => status_of(rt, Err(fault)),
    }
}

/// Runs a command, and answers the status to end with.
fn run_command<'a, R>(rt: &'a R, command: Command<'a>) -> Result<u8, Fault>
where
    R: AllocGlobal
        + Clock
        + Clone
        + Drop
        + Eprint
        + Files<File = File>
        + Input
        + Net<Listener = TcpListener, Stream = TcpStream>
        + Print
        + RandomSource,
{
    match command {
        Command::Demo => run_demo::<Brand, R>(rt, Blank::new(1)),
        Command::Render => run_render(rt),
        Command::Examples(file) => run_examples(rt, file),
        Command::Check(check) => run_check::<Brand, R>(rt, Blank::new(1), &check),
        Command::Replay(replay) => run_replay::<Brand, R>(rt, Blank::new(1), &replay),
        Command::Serve(serve) => run_serve::<Brand, R>(rt, Blank::new(1), &serve),
        Command::Listen(listen) => Ok(run_listen::<Brand, R>(rt, Blank::new(1), &listen)),
        Command::Compact(compact) => Ok(run_compact(rt, &compact)),
        Command::Folders(config) => Ok(run_folders(rt, config)),
        Command::Lint(lint) => Ok(run_lint(rt, &lint)),
        Command::Token(token) => Ok(run_token(rt, &token)),
        Command::TokenHash => Ok(run_token_hash(rt)),
        Command::Version => told(rt, &VersionLines),
        Command::Help => told(rt, &HELP),
    }
}

/// Prints a text and a line feed.
fn told<P: Print, D: Display>(rt: &P, text: &D) -> Result<u8, Fault> {
    match println!(rt; "{text}") {
        Ok(()) => Ok(0),
        Err(_) => Err(Fault::CannotWrite),
    }
}
