//! What the words of the command line ask for.
ghost use Rattle.std.specs.Prelude.{◌≡◌, ◌<◌, IfSome, map, string_bytes};
ghost use Rattle.std.specs.Char.{is_ascii_digit};
ghost use Rattle.std.specs.List.{list_all};
ghost use Rattle.shard_run.specs.Commands.{HasShards, command_of, piece_of, route_of, shards_in};

/// The most digits of a number of shards, and the most shards.
const SHARD_DIGITS: usize = 7;

const MAX_SHARDS: u32 = 1_000_000;

/// A query that is made of a collect.
#[derive(Clone, Copy, Debug, PartialEq, Eq)]
pub enum Piece {
    /// That of a shard.
    Shard,
    /// The mask.
    Mask,
}

/// What the words after the program's name ask for.
#[derive(Clone, Copy, Debug, PartialEq, Eq)]
pub enum Command {
    /// The text of a query that is made of a collect.
    Text(Piece),
    /// Where each line goes.
    Route { shards: u32 },
}

/// What the words ask for, if they have one of the known forms.
pub fn command_of(words: &[String]) -> Option<Command>
    ensures command { result ≡ command_of (map string_bytes words.now) }
    ensures shards { IfSome result HasShards }
{
    match words {
        [word, _] => piece_of(word.as_str()),
        [word, _, shards, _] => route_of(word.as_str(), shards.as_str()),
        _ => None,
    }
}

fn piece_of(word: &str) -> Option<Command>
    ensures command { result ≡ piece_of word.now }
    ensures shards { IfSome result HasShards }
{
    match word {
        "part" => Some(Command::Text(Piece::Shard)),
        "mask" => Some(Command::Text(Piece::Mask)),
        _ => None,
    }
}

fn route_of(word: &str, shards: &str) -> Option<Command>
    ensures command { result ≡ route_of word.now shards.now }
    ensures shards { IfSome result HasShards }
{
    if word != "route" {
        return None;
    }
    let shards = shards_in(shards)?;
    Some(Command::Route { shards })
}

// The number of shards that is written with 1 to 7 digits, unless it is 0 or too great.
fn shards_in(word: &str) -> Option<u32>
    ensures number { result ≡ shards_in word.now }
    ensures some { IfSome result (λ shards. 0 < shards) }
{
    if word.len() > SHARD_DIGITS || !are_digits(word.as_bytes()) {
        return None;
    }
    match word.parse::<u32>() {
        Ok(shards) if 0 < shards && shards <= MAX_SHARDS => Some(shards),
        _ => None,
    }
}

fn are_digits(bytes: &[u8]) -> bool
    ensures { result ≡ list_all is_ascii_digit bytes.now }
{
    bytes.iter().all(|byte| byte.is_ascii_digit())
}
