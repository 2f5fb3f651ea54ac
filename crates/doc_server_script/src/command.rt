//! The words that lines begin with.

ghost use Rattle.std.specs.Prelude.{◌≡◌};
ghost use Rattle.doc_server_script.specs.Lines.{command_of};

/// What a line with fields is to do.
#[derive(Clone, Copy)]
pub enum Command {
    Push,
    Step,
    Disconnect,
    Put,
    Remove,
    Move,
    Reader,
    Unreader,
}

/// The command that a word names.
pub fn command_of(word: &str) -> Option<Command>
    ensures { result ≡ command_of word.now }
{
    match word {
        "push" => Some(Command::Push),
        "step" => Some(Command::Step),
        "disconnect" => Some(Command::Disconnect),
        "put" => Some(Command::Put),
        "remove" => Some(Command::Remove),
        "move" => Some(Command::Move),
        "reader" => Some(Command::Reader),
        "unreader" => Some(Command::Unreader),
        _ => None,
    }
}
