//! Where trees stand in the text.
use crate::{Expression, Key, Predicate, Query, Rate};
use language_base::Span;

impl Expression {
    ghost use Rattle.std.specs.Prelude.{◌≡◌};
    ghost use Rattle.query_syntax.specs.Plain.{plain_expression};
    ghost use Rattle.query_syntax.specs.Spans.{expression_span};

    pub fn span(&self) -> Span
        ensures { result ≡ expression_span (plain_expression self.now) }
    {
        match self {
            Expression::Number(number) => number.span,
            Expression::Name(name) => name.span,
            Expression::Unary { span, .. }
            | Expression::Binary { span, .. }
            | Expression::If { span, .. }
            | Expression::Summary { span, .. }
            | Expression::Extremum { span, .. }
            | Expression::Get { span, .. }
            | Expression::Record { span, .. }
            | Expression::Part { span, .. } => *span,
        }
    }
}

impl Predicate {
    ghost use Rattle.std.specs.Prelude.{◌≡◌};
    ghost use Rattle.query_syntax.specs.Plain.{plain_predicate};
    ghost use Rattle.query_syntax.specs.Spans.{predicate_span};

    pub fn span(&self) -> Span
        ensures { result ≡ predicate_span (plain_predicate self.now) }
    {
        match self {
            Predicate::Any(span)
            | Predicate::Equality { span, .. }
            | Predicate::Order { span, .. }
            | Predicate::Between { span, .. }
            | Predicate::IsNum { span, .. }
            | Predicate::Joined { span, .. }
            | Predicate::Not { span, .. } => *span,
        }
    }
}

impl Rate {
    ghost use Rattle.std.specs.Prelude.{◌≡◌};
    ghost use Rattle.query_syntax.specs.Plain.{plain_rate};
    ghost use Rattle.query_syntax.specs.Spans.{rate_span};

    pub fn span(&self) -> Span
        ensures { result ≡ rate_span (plain_rate self.now) }
    {
        match self {
            Rate::Eps(span)
            | Rate::Item { span, .. }
            | Rate::Joined { span, .. }
            | Rate::Star { span, .. } => *span,
        }
    }
}

impl Key {
    ghost use Rattle.std.specs.Prelude.{◌≡◌};
    ghost use Rattle.query_syntax.specs.Keys.{key_span};

    pub fn span(&self) -> Span
        ensures { result ≡ key_span self.now }
    {
        match self {
            Key::Column(name) => name.span,
            Key::Columns(_, span) => *span,
        }
    }
}

impl Query {
    ghost use Rattle.std.specs.Prelude.{◌≡◌};
    ghost use Rattle.query_syntax.specs.Plain.{plain_query};
    ghost use Rattle.query_syntax.specs.Spans.{query_span};

    pub fn span(&self) -> Span
        ensures { result ≡ query_span (plain_query self.now) }
    {
        match self {
            Query::Name(name) => name.span,
            Query::Atom { span, .. }
            | Query::Eps { span, .. }
            | Query::Or { span, .. }
            | Query::Split { span, .. }
            | Query::Iter { span, .. }
            | Query::Combine { span, .. }
            | Query::Apply { span, .. }
            | Query::Compose { span, .. }
            | Query::Collect { span, .. } => *span,
        }
    }
}
