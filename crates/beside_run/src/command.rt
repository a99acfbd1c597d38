//! What the words of the command line ask for.
ghost use Rattle.std.specs.Prelude.{◌≡◌, IfSome, map, string_bytes};
ghost use Rattle.beside_run.specs.Commands.{HasQueries, command_of, named};

/// The most queries that are run at once.
const MAX_QUERIES: usize = 16;

/// What the words after the program's name ask for.
#[derive(Clone, Copy, Debug, PartialEq, Eq)]
pub enum Command {
    /// Each line again, and beside it what a run of each query writes for it.
    Beside,
    /// The answer on all items, alone.
    Last,
}

/// What the words ask for of so many queries, if they have one of the known forms.
pub fn command_of(words: &[String], queries: usize) -> Option<Command>
    ensures command { result ≡ command_of (map string_bytes words.now) queries }
    ensures queries { IfSome result (λ command. HasQueries command queries) }
{
    let [word, others @ ..] = words else {
        return None;
    };
    if queries < 1 || MAX_QUERIES < queries || others.len() != queries + 1 {
        return None;
    }
    named(word.as_str(), queries)
}

fn named(word: &str, queries: usize) -> Option<Command>
    ensures command { result ≡ named word.now queries }
    ensures queries { IfSome result (λ command. HasQueries command queries) }
{
    match word {
        "beside" => Some(Command::Beside),
        "last" if queries == 1 => Some(Command::Last),
        _ => None,
    }
}
