//! The options behind the other words of a command, in any order, each at most once. A further option is one arm of `taken`.

ghost use Rattle.std.specs.Prelude.{◌≡◌, ◌∷◌, ◌≤◌, IfOk, length, option_copied};
ghost use Rattle.doc_server_arguments.specs.Texts.{texts};
ghost use Rattle.doc_server_arguments.specs.Options.{options_in, stated};
ghost use Rattle.doc_server_arguments.specs.OptionSteps.{address_behind, file_behind, log_taken, pause_behind, said_so_far};
ghost use Rattle.doc_server_arguments.specs.OptionSteps.{shown_address, shown_file, shown_options, shown_pause, taken_all, taken_behind};

use crate::address::listen_address_of;
use crate::log_form::LogForm;
use crate::number::pause_of;
use crate::usage_fault::UsageFault;
use doc_page_parts::heap::String;
use std::net::SocketAddr;

/// Which options a command has.
#[derive(Clone, Copy, Debug, PartialEq, Eq)]
pub(crate) enum Known {
    /// `--journal FILE`, `--follow FILE`, `--log` or `--log=json`, `--status ADDR` and `--watch SECONDS`.
    All,
    /// `--journal FILE` alone.
    Journal,
}

/// What options say.
#[derive(Clone, Copy, Debug, PartialEq, Eq)]
pub(crate) struct Options<'a> {
    /// The file of the journal, where there is one.
    pub(crate) journal: Option<&'a str>,
    /// The file of the journal that is followed, where one is.
    pub(crate) follow: Option<&'a str>,
    /// How each request is logged, where it is.
    pub(crate) log: Option<LogForm>,
    /// Where monitors are answered, if they are.
    pub(crate) status: Option<SocketAddr>,
    /// After how many seconds it is looked whether files have changed, if it is.
    pub(crate) watch: Option<u32>,
}

/// The options that these words are.
pub(crate) fn options_of<'a>(
    known: Known,
    words: &'a [String],
) -> Result<Options<'a>, UsageFault<'a>>
    ensures { shown_options result ≡ options_in known (texts words.now) }
{
    let mut options = Options {
        journal: None,
        follow: None,
        log: None,
        status: None,
        watch: None,
    };
    let mut rest = words;
    'options: while let Some((option, behind)) = rest.split_first() {
        let (more, left) = taken(known, options, option.as_str(), behind)?;
        options = more;
        rest = left;
    }
    Ok(options)
}

/// The options with one more, and the words behind that.
fn taken<'a>(
    known: Known,
    options: Options<'a>,
    option: &'a str,
    behind: &'a [String],
) -> Result<(Options<'a>, &'a [String]), UsageFault<'a>>
    ensures same { taken_behind known result
        ≡ taken_all known (said_so_far options.entry) (stated (option.now ∷ texts behind.now)) }
    ensures fewer { IfOk result (λ left. length left.1.now ≤ length behind.now) }
{
    match option {
        "--journal" => {
            let (file, rest) = file_of(option, options.journal, behind)?;
            let journal = Some(file);
            Ok((Options { journal, ..options }, rest))
        }
        _ if known == Known::Journal => Err(UsageFault::UnknownOption(option)),
        "--follow" => {
            let (file, rest) = file_of(option, options.follow, behind)?;
            let follow = Some(file);
            Ok((Options { follow, ..options }, rest))
        }
        "--log" => {
            let options = logged(options, LogForm::Plain)?;
            Ok((options, behind))
        }
        "--log=json" => {
            let options = logged(options, LogForm::Json)?;
            Ok((options, behind))
        }
        "--status" => {
            let (address, rest) = address_behind(option, options.status, behind)?;
            let status = Some(address);
            Ok((Options { status, ..options }, rest))
        }
        "--watch" => {
            let (seconds, rest) = pause_behind(option, options.watch, behind)?;
            let watch = Some(seconds);
            Ok((Options { watch, ..options }, rest))
        }
        _ => Err(UsageFault::UnknownOption(option)),
    }
}

/// The options with a log of this form. It is one option in its two forms, and stands once.
fn logged(options: Options<'_>, form: LogForm) -> Result<Options<'_>, UsageFault<'_>>
    ensures { shown_options result ≡ log_taken (said_so_far options.entry) form options.entry.log }
{
    if options.log.is_some() {
        return Err(UsageFault::StandsTwice("--log"));
    }
    Ok(Options {
        log: Some(form),
        ..options
    })
}

/// The file of an option, which says what stood before, and the words behind it.
fn file_of<'a>(
    option: &'a str,
    before: Option<&'a str>,
    behind: &'a [String],
) -> Result<(&'a str, &'a [String]), UsageFault<'a>>
    ensures same { shown_file result
        ≡ file_behind option.now (option_copied before.entry) (texts behind.now) }
    ensures fewer { IfOk result (λ left. length left.1.now ≤ length behind.now) }
{
    if before.is_some() {
        return Err(UsageFault::StandsTwice(option));
    }
    let Some((file, rest)) = behind.split_first() else {
        return Err(UsageFault::NeedsFile(option));
    };
    Ok((file.as_str(), rest))
}

/// The address of an option, by what an earlier one said, and the words behind it.
fn address_behind<'a>(
    option: &'a str,
    earlier: Option<SocketAddr>,
    behind: &'a [String],
) -> Result<(SocketAddr, &'a [String]), UsageFault<'a>>
    ensures same { shown_address result ≡ address_behind option.now earlier (texts behind.now) }
    ensures fewer { IfOk result (λ left. length left.1.now ≤ length behind.now) }
{
    if earlier.is_some() {
        return Err(UsageFault::StandsTwice(option));
    }
    let Some((written, rest)) = behind.split_first() else {
        return Err(UsageFault::NeedsAddress(option));
    };
    match listen_address_of(written.as_str()) {
        Some(address) => Ok((address, rest)),
        None => Err(UsageFault::Address),
    }
}

/// The seconds of an option, by what an earlier one said, and the words behind it.
fn pause_behind<'a>(
    option: &'a str,
    earlier: Option<u32>,
    behind: &'a [String],
) -> Result<(u32, &'a [String]), UsageFault<'a>>
    ensures same { shown_pause result ≡ pause_behind option.now earlier (texts behind.now) }
    ensures fewer { IfOk result (λ left. length left.1.now ≤ length behind.now) }
{
    if earlier.is_some() {
        return Err(UsageFault::StandsTwice(option));
    }
    let Some((written, rest)) = behind.split_first() else {
        return Err(UsageFault::NeedsSeconds);
    };
    match pause_of(written.as_str()) {
        Some(seconds) => Ok((seconds, rest)),
        None => Err(UsageFault::NeedsSeconds),
    }
}
