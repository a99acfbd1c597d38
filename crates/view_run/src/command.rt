//! What the words of the command line ask for.
ghost use Rattle.std.specs.Prelude.{◌≡◌, map, string_bytes};
ghost use Rattle.view_run.specs.Commands.{command_of, digits_in, form_named, units_in, view_in};
ghost use Rattle.view_run.specs.Commands.{view_with};

use view_lines::Form;

/// What the words after the program's name ask for.
#[derive(Clone, Copy, Debug, PartialEq, Eq)]
pub enum Command {
    /// Each line with its answer. Where no number of digits is given, the answer has those of its
    /// units.
    View { form: Form, digits: Option<u8> },
    /// In which units the answers are.
    Units,
}

/// What the words ask for, if they have one of the known forms.
pub fn command_of(words: &[String]) -> Option<Command>
    ensures { result ≡ command_of (map string_bytes words.now) }
{
    match words {
        [word, _] => units_in(word.as_str()),
        [word, _, _, form] => view_in(word.as_str(), form.as_str(), None),
        [word, _, _, form, digits] => view_with(word.as_str(), form.as_str(), digits.as_str()),
        _ => None,
    }
}

fn units_in(word: &str) -> Option<Command>
    ensures { result ≡ units_in word.now }
{
    match word {
        "units" => Some(Command::Units),
        _ => None,
    }
}

fn view_in(word: &str, form: &str, digits: Option<u8>) -> Option<Command>
    ensures { result ≡ view_in word.now form.now digits }
{
    if word != "view" {
        return None;
    }
    let form = form_named(form)?;
    Some(Command::View { form, digits })
}

fn view_with(word: &str, form: &str, digits: &str) -> Option<Command>
    ensures { result ≡ view_with word.now form.now (digits_in digits.now) }
{
    let digits = digits_in(digits)?;
    view_in(word, form, Some(digits))
}

fn form_named(word: &str) -> Option<Form>
    ensures { result ≡ form_named word.now }
{
    match word {
        "json" => Some(Form::Json),
        "csv" => Some(Form::Csv),
        "tsv" => Some(Form::Tsv),
        "columns" => Some(Form::Columns),
        "dimmed" => Some(Form::Dimmed),
        _ => None,
    }
}

// The number of digits that is written with one character.
fn digits_in(word: &str) -> Option<u8>
    ensures { result ≡ digits_in word.now }
{
    match word.as_bytes() {
        [digit] if digit.is_ascii_digit() => Some(*digit - b'0'),
        _ => None,
    }
}
