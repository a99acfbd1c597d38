//! What the words of the command line ask for.
ghost use Rattle.std.specs.Prelude.{◌≡◌, map, string_bytes};
ghost use Rattle.hints_run.specs.Commands.{command_of, with_items, with_query};

/// What the words after the program's name ask for.
#[derive(Clone, Copy, Debug, PartialEq, Eq)]
pub enum Command {
    /// What there is to report of the query.
    Hints,
    /// After which line of the items no further items lead to a value.
    Dead,
}

/// What the words ask for, if they have one of the known forms.
pub fn command_of(words: &[String]) -> Option<Command>
    ensures { result ≡ command_of (map string_bytes words.now) }
{
    match words {
        [word, _] => with_query(word.as_str()),
        [word, _, _] => with_items(word.as_str()),
        _ => None,
    }
}

fn with_query(word: &str) -> Option<Command>
    ensures { result ≡ with_query word.now }
{
    match word {
        "hints" => Some(Command::Hints),
        _ => None,
    }
}

fn with_items(word: &str) -> Option<Command>
    ensures { result ≡ with_items word.now }
{
    match word {
        "dead" => Some(Command::Dead),
        _ => None,
    }
}
