//! The lines that say which name a refusal is about.
ghost use Rattle.std.specs.Prelude.{◌≡◌, ◌++◌, OnOk};
ghost use Rattle.explanation.specs.CulpritLines.{culprit_line, known_there, named_line, place_of};
ghost use Rattle.explanation.specs.CulpritLines.{said_of};

use crate::culprit::Culprit;
use crate::recognizers::term_at;
use language_base::Span;
use std::alloc::AllocError;

const QUERY_NAMES: &str =
    "A word is a query as the name of an earlier let; columns are read in an atom.\n";

const COLUMN_NAMES: &str =
    "These names are columns of the stream: one is not declared as it is spelled here.\n";

const VALUE_NAME: &str = "\
    The right side of a compose reads the left's values in value, a record's parts in \
    value1, ..\n";

const VALUE_NAMES: &str =
    "A record is read in a column for each part, value1 and value2 and so on, others in value.\n";

const VALUE_KINDS: &str =
    "No value is a text; a value that is a table has no tests, and tsum(value) reads it.\n";

const ONE_NAME: &str =
    "Here only x is known, the value of the operand; columns are read in an atom.\n";

const TWO_NAMES: &str =
    "Here only x and y are known, the two values; columns are read in an atom.\n";

const TWICE_COLUMN: &str = "An earlier col has this name, and each column has its own: ";

const TWICE_LET: &str = "An earlier let has this name, and each let has its own: ";

const TWICE_KEY: &str = "The key has this column already, and each column once; drop it: ";

const NO_LET: &str = "No earlier let has this name: ";

const UNKNOWN: &str = "Not known here: ";

const ONE_UNKNOWN: &str = "Of the names here one is not known; the first is: ";

const OTHER_KIND: &str = "Of another kind than is taken here: ";

const TEXTS: &str =
    "A column of texts, where a number is taken; declare it int where it has numbers: ";

const NUMBERS: &str =
    "A column of numbers, where a text is taken; drop the quotes, or declare it text: ";

const KEY: &str = "A column of numbers, where a key is taken; declare it text: ";

const COLLECTED: &str =
    "A record is collected by this key, where a number is taken, as apply(F, part(x, 1)): ";

const NO_TABLE: &str = "A column of items, where a table is taken: ";

const NO_RECORD: &str = "A column of items, where a record is taken: ";

pub(crate) fn push_culprit(
    text: &[u8],
    culprit: Option<Culprit>,
    shown: &mut Vec<u8>,
) -> Result<(), AllocError>
    ensures { OnOk result (shown.new.items ≡ shown.old.items ++ culprit_line text.now culprit) }
{
    match culprit {
        Some(culprit) => {
            shown.extend_from_slice(known_there(culprit).as_bytes())?;
            push_named(said_of(culprit), term_at(text, place_of(culprit)), shown)
        }
        None => Ok(()),
    }
}

pub(crate) fn push_named(what: &str, name: &[u8], shown: &mut Vec<u8>) -> Result<(), AllocError>
    ensures { OnOk result (shown.new.items ≡ shown.old.items ++ named_line what.now name.now) }
{
    shown.extend_from_slice(what.as_bytes())?;
    shown.extend_from_slice(name)?;
    shown.extend_from_slice(b"\n")
}

// Which names are known where it stands, if that is why it is refused.
#[tactic(auto, unfolding(crate::specs::CulpritLines::known_there))]
fn known_there(culprit: Culprit) -> &'static str
    ensures { result.now ≡ known_there culprit }
{
    match culprit {
        Culprit::NoLet(_) => QUERY_NAMES,
        Culprit::NoColumn(_) => COLUMN_NAMES,
        Culprit::NoValue(_) => VALUE_NAME,
        Culprit::OtherValue(_) => VALUE_NAMES,
        Culprit::OfValue(_) => VALUE_KINDS,
        Culprit::NotOne(_) => ONE_NAME,
        Culprit::NotTwo(_) => TWO_NAMES,
        Culprit::TwiceColumn(_)
        | Culprit::TwiceLet(_)
        | Culprit::TwiceKey(_)
        | Culprit::Texts(_)
        | Culprit::Numbers(_)
        | Culprit::Key(_)
        | Culprit::Collected(_)
        | Culprit::NoTable(_)
        | Culprit::NoRecord(_) => "",
    }
}

#[tactic(auto, unfolding(crate::specs::CulpritLines::said_of))]
fn said_of(culprit: Culprit) -> &'static str
    ensures { result.now ≡ said_of culprit }
{
    match culprit {
        Culprit::TwiceColumn(_) => TWICE_COLUMN,
        Culprit::TwiceLet(_) => TWICE_LET,
        Culprit::TwiceKey(_) => TWICE_KEY,
        Culprit::NoLet(_) => NO_LET,
        Culprit::NoColumn(_) | Culprit::NoValue(_) | Culprit::NotOne(_) | Culprit::NotTwo(_) => {
            UNKNOWN
        }
        Culprit::OtherValue(_) => ONE_UNKNOWN,
        Culprit::OfValue(_) => OTHER_KIND,
        Culprit::Texts(_) => TEXTS,
        Culprit::Numbers(_) => NUMBERS,
        Culprit::Key(_) => KEY,
        Culprit::Collected(_) => COLLECTED,
        Culprit::NoTable(_) => NO_TABLE,
        Culprit::NoRecord(_) => NO_RECORD,
    }
}

fn place_of(culprit: Culprit) -> Span
    ensures { result ≡ place_of culprit }
{
    match culprit {
        Culprit::TwiceColumn(span)
        | Culprit::TwiceLet(span)
        | Culprit::TwiceKey(span)
        | Culprit::NoLet(span)
        | Culprit::NoColumn(span)
        | Culprit::NoValue(span)
        | Culprit::OtherValue(span)
        | Culprit::OfValue(span)
        | Culprit::NotOne(span)
        | Culprit::NotTwo(span)
        | Culprit::Texts(span)
        | Culprit::Numbers(span)
        | Culprit::Key(span)
        | Culprit::Collected(span)
        | Culprit::NoTable(span)
        | Culprit::NoRecord(span) => span,
    }
}
