//! The command that the arguments ask for.

ghost use Rattle.std.specs.Prelude.{◌≡◌};
ghost use Rattle.doc_server_arguments.specs.Commands.{alone, check_in, command_in, examples_in, replay_in};
ghost use Rattle.doc_server_arguments.specs.Commands.{compact_in, folders_in, hash_in, lint_in, listen_in, serve_in, token_in};
ghost use Rattle.doc_server_arguments.specs.CommandSteps.{command_shown, shown_command};
ghost use Rattle.doc_server_arguments.specs.Texts.{texts};

use crate::address::{address_of, listen_address_of};
use crate::command::{Check, Command, Compact, Lint, Listen, Replay, Serve, Token};
use crate::number::count_of;
use crate::options::{Known, options_of};
use crate::token_options::given_of;
use crate::usage_fault::UsageFault;
use doc_page_parts::heap::String;

/// The command that these words are, or what isn't understood of them. They are the arguments behind the name of the program.
pub fn command_of(words: &[String]) -> Result<Command<'_>, UsageFault<'_>>
    ensures { shown_command result ≡ command_in (texts words.now) }
{
    let Some((name, rest)) = words.split_first() else {
        return Err(UsageFault::Command);
    };
    match name.as_str() {
        "demo" => alone(Command::Demo, rest),
        "render" => alone(Command::Render, rest),
        "examples" => examples_of(rest),
        "check" => check_of(rest),
        "replay" => replay_of(rest),
        "serve" => serve_of(rest),
        "listen" => listen_of(rest),
        "compact" => compact_of(rest),
        "folders" => folders_of(rest),
        "lint" => lint_of(rest),
        "token" => token_of(rest),
        "--version" => alone(Command::Version, rest),
        "--help" => alone(Command::Help, rest),
        _ => Err(UsageFault::Command),
    }
}

/// A command behind which nothing stands.
fn alone<'a>(command: Command<'a>, rest: &'a [String]) -> Result<Command<'a>, UsageFault<'a>>
    ensures { shown_command result ≡ alone (command_shown command.entry) (texts rest.now) }
{
    if rest.is_empty() {
        return Ok(command);
    }
    Err(UsageFault::Command)
}

/// `examples FILE`
fn examples_of(words: &[String]) -> Result<Command<'_>, UsageFault<'_>>
    ensures { shown_command result ≡ examples_in (texts words.now) }
{
    let [file] = words else {
        return Err(UsageFault::Command);
    };
    Ok(Command::Examples(file.as_str()))
}

/// `check CONFIG TOKEN`
fn check_of(words: &[String]) -> Result<Command<'_>, UsageFault<'_>>
    ensures { shown_command result ≡ check_in (texts words.now) }
{
    let [config, token] = words else {
        return Err(UsageFault::Command);
    };
    Ok(Command::Check(Check {
        config: config.as_str(),
        token: token.as_str(),
    }))
}

/// `replay CONFIG`
fn replay_of(words: &[String]) -> Result<Command<'_>, UsageFault<'_>>
    ensures { shown_command result ≡ replay_in (texts words.now) }
{
    let [config] = words else {
        return Err(UsageFault::Command);
    };
    Ok(Command::Replay(Replay {
        config: config.as_str(),
    }))
}

/// `serve CONFIG ADDR COUNT TURNS`
fn serve_of(words: &[String]) -> Result<Command<'_>, UsageFault<'_>>
    ensures { shown_command result ≡ serve_in (texts words.now) }
{
    let [config, written, count, turns] = words else {
        return Err(UsageFault::Command);
    };
    let (Some(address), Some(count), Some(turns)) = (
        address_of(written.as_str()),
        count_of(count.as_str()),
        count_of(turns.as_str()),
    ) else {
        return Err(UsageFault::Command);
    };
    Ok(Command::Serve(Serve {
        config: config.as_str(),
        written: written.as_str(),
        address,
        count,
        turns,
    }))
}

/// `listen CONFIG ADDR [--journal FILE | --follow FILE] [--log | --log=json] [--status ADDR] [--watch SECONDS]`
fn listen_of(words: &[String]) -> Result<Command<'_>, UsageFault<'_>>
    ensures { shown_command result ≡ listen_in (texts words.now) }
{
    let [config, written, options @ ..] = words else {
        return Err(UsageFault::Command);
    };
    let Some(address) = listen_address_of(written.as_str()) else {
        return Err(UsageFault::Address);
    };
    let options = options_of(Known::All, options)?;
    if options.journal.is_some() && options.follow.is_some() {
        return Err(UsageFault::JournalAndFollow);
    }
    Ok(Command::Listen(Listen {
        config: config.as_str(),
        written: written.as_str(),
        address,
        journal: options.journal,
        follow: options.follow,
        log: options.log,
        status: options.status,
        watch: options.watch,
    }))
}

/// `compact CONFIG --journal FILE`
fn compact_of(words: &[String]) -> Result<Command<'_>, UsageFault<'_>>
    ensures { shown_command result ≡ compact_in (texts words.now) }
{
    let Some((config, options)) = words.split_first() else {
        return Err(UsageFault::Command);
    };
    let options = options_of(Known::Journal, options)?;
    let Some(journal) = options.journal else {
        return Err(UsageFault::Command);
    };
    Ok(Command::Compact(Compact {
        config: config.as_str(),
        journal,
    }))
}

/// `folders CONFIG`
fn folders_of(words: &[String]) -> Result<Command<'_>, UsageFault<'_>>
    ensures { shown_command result ≡ folders_in (texts words.now) }
{
    let [config] = words else {
        return Err(UsageFault::Command);
    };
    Ok(Command::Folders(config.as_str()))
}

/// `lint CONFIG [--journal FILE]`
fn lint_of(words: &[String]) -> Result<Command<'_>, UsageFault<'_>>
    ensures { shown_command result ≡ lint_in (texts words.now) }
{
    let Some((config, options)) = words.split_first() else {
        return Err(UsageFault::Command);
    };
    let options = options_of(Known::Journal, options)?;
    Ok(Command::Lint(Lint {
        config: config.as_str(),
        journal: options.journal,
    }))
}

/// `token NAME [--owner] [--groups NAMES]`, and `token --hash`
fn token_of(words: &[String]) -> Result<Command<'_>, UsageFault<'_>>
    ensures { shown_command result ≡ token_in (texts words.now) }
{
    let Some((name, options)) = words.split_first() else {
        return Err(UsageFault::Command);
    };
    if name.as_str() == "--hash" {
        return hash_of(options);
    }
    let given = given_of(options)?;
    Ok(Command::Token(Token {
        name: name.as_str(),
        is_owner: given.is_owner,
        groups: given.groups,
    }))
}

/// What stands behind `token --hash`: nothing.
fn hash_of(words: &[String]) -> Result<Command<'_>, UsageFault<'_>>
    ensures { shown_command result ≡ hash_in (texts words.now) }
{
    match words.first() {
        None => Ok(Command::TokenHash),
        Some(word) => Err(UsageFault::UnknownOption(word.as_str())),
    }
}
