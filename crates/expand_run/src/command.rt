//! What the words of the command line ask for.
ghost use Rattle.std.specs.Prelude.{◌≡◌, map, string_bytes};
ghost use Rattle.std.specs.Char.{is_ascii_digit};
ghost use Rattle.std.specs.List.{list_all};
ghost use Rattle.expand_run.specs.Commands.{command_of, mark_of, place_in, question_of};

use language_base::Span;

/// The most digits of a place.
const PLACE_DIGITS: usize = 7;

/// What the words after the program's name ask for.
#[derive(Clone, Copy, Debug, PartialEq, Eq)]
pub enum Command {
    /// The plain query.
    Expand,
    /// Where each node of the plain query comes from.
    Origins,
    /// Why the query is refused, if it is.
    Explain,
    /// A place of the query as it is shown to a person.
    Mark(Span),
}

/// What the words ask for, if they have one of the known forms.
pub fn command_of(words: &[String]) -> Option<Command>
    ensures { result ≡ command_of (map string_bytes words.now) }
{
    match words {
        [word, _] => question_of(word.as_str()),
        [word, _, from, to] => mark_of(word.as_str(), from.as_str(), to.as_str()),
        _ => None,
    }
}

fn question_of(word: &str) -> Option<Command>
    ensures { result ≡ question_of word.now }
{
    match word {
        "expand" => Some(Command::Expand),
        "origins" => Some(Command::Origins),
        "explain" => Some(Command::Explain),
        _ => None,
    }
}

fn mark_of(word: &str, from: &str, to: &str) -> Option<Command>
    ensures { result ≡ mark_of word.now from.now to.now }
{
    if word != "mark" {
        return None;
    }
    let from = place_in(from)?;
    let to = place_in(to)?;
    Some(Command::Mark(Span { from, to }))
}

// The place that is written with 1 to 7 digits.
fn place_in(word: &str) -> Option<u32>
    ensures { result ≡ place_in word.now }
{
    if word.len() > PLACE_DIGITS || !are_digits(word.as_bytes()) {
        return None;
    }
    word.parse::<u32>().ok()
}

fn are_digits(bytes: &[u8]) -> bool
    ensures { result ≡ list_all is_ascii_digit bytes.now }
{
    bytes.iter().all(|byte| byte.is_ascii_digit())
}
