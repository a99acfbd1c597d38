//! What the words of the command line ask for.
ghost use Rattle.std.specs.Prelude.{◌≡◌, ◌≤◌, IfSome, map, string_bytes};
ghost use Rattle.std.specs.Char.{is_ascii_digit};
ghost use Rattle.std.specs.List.{list_all};
ghost use Rattle.sqre_run.specs.Commands.{command_of, drill_of, number_in, question_of, run_of};

/// The most digits of a number of items, and of a seed.
const COUNT_DIGITS: usize = 7;

const SEED_DIGITS: usize = 20;
/// The most items of a drill.
const MAX_ITEMS: u64 = 1_000_000;

/// Which engine a run uses.
#[derive(Clone, Copy, Debug, PartialEq, Eq)]
pub enum Engine {
    /// It goes from item to item and keeps no items.
    Runner,
    /// It keeps the whole word and searches it anew after each item.
    Slow,
}

/// What the words after the program's name ask for.
#[derive(Clone, Copy, Debug, PartialEq, Eq)]
pub enum Command {
    /// An answer to each item.
    Run(Engine),
    /// Whether the query is accepted.
    Check,
    /// How much may be kept for the query.
    Bound,
    /// Why the query is refused, if it is.
    Why,
    /// What the query answers to `count` items that the seed draws, summed up.
    Drill { count: u32, seed: u64 },
    /// The query by the rules that keep its values, as a text.
    Rewrite,
}

/// What the words ask for, if they have one of the known forms.
pub fn command_of(words: &[String]) -> Option<Command>
    ensures { result ≡ command_of (map string_bytes words.now) }
{
    match words {
        [word, _] => question_of(word.as_str()),
        [word, _, _] => run_of(word.as_str()),
        [word, _, count, seed] => drill_of(word.as_str(), count.as_str(), seed.as_str()),
        _ => None,
    }
}

fn question_of(word: &str) -> Option<Command>
    ensures { result ≡ question_of word.now }
{
    match word {
        "check" => Some(Command::Check),
        "bound" => Some(Command::Bound),
        "why" => Some(Command::Why),
        "rewrite" => Some(Command::Rewrite),
        _ => None,
    }
}

fn run_of(word: &str) -> Option<Command>
    ensures { result ≡ run_of word.now }
{
    match word {
        "run" => Some(Command::Run(Engine::Runner)),
        "slow" => Some(Command::Run(Engine::Slow)),
        _ => None,
    }
}

fn drill_of(word: &str, count: &str, seed: &str) -> Option<Command>
    ensures { result ≡ drill_of word.now count.now seed.now }
{
    if word != "drill" {
        return None;
    }
    let count = number_in(count, COUNT_DIGITS, MAX_ITEMS)?;
    let seed = number_in(seed, SEED_DIGITS, u64::MAX)?;
    Some(Command::Drill {
        count: count as u32,
        seed,
    })
}

// The number that is written with 1 to `digits` digits, unless it is above the greatest.
fn number_in(word: &str, digits: usize, greatest: u64) -> Option<u64>
    ensures number { result ≡ number_in digits greatest word.now }
    ensures most { IfSome result (λ number. number ≤ greatest) }
{
    if word.len() > digits || !are_digits(word.as_bytes()) {
        return None;
    }
    match word.parse::<u64>() {
        Ok(number) if number <= greatest => Some(number),
        _ => None,
    }
}

fn are_digits(bytes: &[u8]) -> bool
    ensures { result ≡ list_all is_ascii_digit bytes.now }
{
    bytes.iter().all(|byte| byte.is_ascii_digit())
}
