//! The names that the language has.
ghost use Rattle.std.specs.Prelude.{◌≡◌, map};
ghost use Rattle.std.specs.List.{list_any};
ghost use Rattle.query_templates.specs.Names.{is_language_name, is_named, language_names};
ghost use Rattle.query_templates.specs.Shown.{shown};

use crate::names::is_named;
use language_base::Span;

struct LanguageName(&'static [u8]);

const NAMES: &[LanguageName] = &[
    LanguageName(b"abs"),
    LanguageName(b"add"),
    LanguageName(b"alt"),
    LanguageName(b"and"),
    LanguageName(b"any"),
    LanguageName(b"apply"),
    LanguageName(b"atom"),
    LanguageName(b"between"),
    LanguageName(b"col"),
    LanguageName(b"collect"),
    LanguageName(b"combine"),
    LanguageName(b"compose"),
    LanguageName(b"def"),
    LanguageName(b"div"),
    LanguageName(b"eps"),
    LanguageName(b"eq"),
    LanguageName(b"fixed"),
    LanguageName(b"ge"),
    LanguageName(b"gt"),
    LanguageName(b"header"),
    LanguageName(b"if"),
    LanguageName(b"include"),
    LanguageName(b"int"),
    LanguageName(b"isnum"),
    LanguageName(b"item"),
    LanguageName(b"iter"),
    LanguageName(b"key"),
    LanguageName(b"le"),
    LanguageName(b"let"),
    LanguageName(b"lt"),
    LanguageName(b"main"),
    LanguageName(b"max"),
    LanguageName(b"min"),
    LanguageName(b"mul"),
    LanguageName(b"ne"),
    LanguageName(b"neg"),
    LanguageName(b"not"),
    LanguageName(b"or"),
    LanguageName(b"part"),
    LanguageName(b"plain"),
    LanguageName(b"rec"),
    LanguageName(b"rem"),
    LanguageName(b"seq"),
    LanguageName(b"split"),
    LanguageName(b"star"),
    LanguageName(b"stream"),
    LanguageName(b"sub"),
    LanguageName(b"text"),
    LanguageName(b"tcount"),
    LanguageName(b"tget"),
    LanguageName(b"tmax"),
    LanguageName(b"tmin"),
    LanguageName(b"tsum"),
    LanguageName(b"value"),
    LanguageName(b"value1"),
    LanguageName(b"value2"),
    LanguageName(b"value3"),
    LanguageName(b"value4"),
    LanguageName(b"value5"),
    LanguageName(b"value6"),
    LanguageName(b"value7"),
    LanguageName(b"value8"),
    LanguageName(b"x"),
    LanguageName(b"y"),
];

fn language_names() -> &'static [LanguageName]
    ensures { map shown result.now ≡ language_names }
{
    NAMES
}

fn is_one_of(text: &[u8], place: Span, names: &[LanguageName]) -> bool
    ensures { result ≡ list_any (is_named text.now place) (map shown names.now) }
{
    'names: for name in names {
        if is_named(text, place, name.0) {
            return true;
        }
    }
    false
}

pub(crate) fn is_language_name(text: &[u8], place: Span) -> bool
    ensures { result ≡ is_language_name text.now place }
{
    is_one_of(text, place, language_names())
}
