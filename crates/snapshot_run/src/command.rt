//! What the words of the command line ask for.
ghost use Rattle.std.specs.Prelude.{◌≡◌, map, string_bytes};
ghost use Rattle.snapshot_run.specs.Commands.{command_of, named};

/// What a run that goes on from a snapshot writes.
#[derive(Clone, Copy, Debug, PartialEq, Eq)]
pub enum Onward {
    /// The answers.
    Resume,
    /// And after them its own snapshot.
    Advance,
}

/// What the words after the program's name ask for.
#[derive(Clone, Copy, Debug, PartialEq, Eq)]
pub enum Command {
    /// The snapshot of a run from the first item on.
    Save,
    /// A run that goes on from a snapshot.
    GoOn(Onward),
}

/// What the words ask for, if they have one of the known forms.
pub fn command_of(words: &[String]) -> Option<Command>
    ensures { result ≡ command_of (map string_bytes words.now) }
{
    match words {
        [word, _, _] => named(word.as_str()),
        _ => None,
    }
}

fn named(word: &str) -> Option<Command>
    ensures { result ≡ named word.now }
{
    match word {
        "save" => Some(Command::Save),
        "resume" => Some(Command::GoOn(Onward::Resume)),
        "advance" => Some(Command::GoOn(Onward::Advance)),
        _ => None,
    }
}
