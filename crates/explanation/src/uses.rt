//! The first use of a let by which its query stands inside of another.
ghost use Rattle.std.specs.Prelude.{◌≡◌, [], IfOk, List, map};
ghost use Rattle.query_syntax.specs.Plain.{plain_let, plain_program, plain_query};
ghost use Rattle.explanation.specs.Leads.{AreLeads};
ghost use Rattle.explanation.specs.Uses.{Known, first_inside, first_lead, first_use, is_on_values};
ghost use Rattle.explanation.specs.Uses.{known_after, lead_of, lead_to, leads_outside};

use crate::spots::has_in;
use language_base::Span;
use query_syntax::{Let, Name, Program, Query};
use std::alloc::{AllocError, Global};
use std::collections::HashMap;

/// What a query stands in.
#[derive(Clone, Copy)]
pub(crate) enum Inside {
    /// The right operand of a composition.
    Compositions,
    /// The right operand of a composition, or a collection.
    Collections,
}

/// Whether a name leads to a place: at all, and outside of the right operands of compositions; and
/// the first use inside of its query that leads there.
#[derive(Clone, Copy)]
pub(crate) struct Lead {
    pub(crate) leads: bool,
    pub(crate) outside: bool,
    pub(crate) used: Option<Span>,
}

/// The first use of the let that contains the place, in the order in which the main query reaches
/// the uses. The time grows with the terms of the text, not with how often a name is used.
pub(crate) fn first_use(
    alloc: Global,
    inside: Inside,
    place: Span,
    program: &Program,
) -> Result<Option<Span>, AllocError>
    ensures { IfOk result (λ used. used ≡ first_use inside place (plain_program program.now)) }
{
    let leads = leads_of(alloc, inside, place, &program.lets)?;
    Ok(first_inside(inside, &leads, &program.main.query))
}

/// Whether the let that contains the place is used only in the right operands of compositions.
pub(crate) fn is_on_values(
    alloc: Global,
    place: Span,
    program: &Program,
) -> Result<bool, AllocError>
    ensures { IfOk result (λ on_values.
        on_values ≡ is_on_values place (plain_program program.now)) }
{
    let leads = leads_of(alloc, Inside::Compositions, place, &program.lets)?;
    let main = &program.main.query;
    let inside = first_inside(Inside::Compositions, &leads, main).is_some();
    Ok(inside && !leads_outside(&leads, main))
}

// What is known of the lets, by their names.
fn leads_of(
    alloc: Global,
    inside: Inside,
    place: Span,
    lets: &[Let],
) -> Result<HashMap<&[u8], Lead>, AllocError>
    ensures { IfOk result (λ leads.
        AreLeads leads (known_after inside place [] (map plain_let lets.now))) }
{
    let mut leads = HashMap::new(alloc);
    'lets: for one in lets {
        let lead = lead_to(inside, place, &leads, one);
        leads.insert(one.name.bytes.as_slice(), lead)?;
    }
    Ok(leads)
}

fn lead_to(inside: Inside, place: Span, leads: &HashMap<&[u8], Lead>, one: &Let) -> Lead
    ensures { (known : List Known) → AreLeads leads.now known
        → result ≡ lead_to inside place known (plain_let one.now) }
{
    Lead {
        leads: has_in(one.span, place) || first_lead(leads, &one.query).is_some(),
        outside: has_in(one.span, place) || leads_outside(leads, &one.query),
        used: first_inside(inside, leads, &one.query),
    }
}

fn lead_of(leads: &HashMap<&[u8], Lead>, name: &Name) -> Lead
    ensures { (known : List Known) → AreLeads leads.now known
        → result ≡ lead_of known name.now.bytes }
{
    match leads.get(name.bytes.as_slice()) {
        Some(lead) => *lead,
        None => Lead {
            leads: false,
            outside: false,
            used: None,
        },
    }
}

// The first name in a query that leads to the place.
fn first_lead(leads: &HashMap<&[u8], Lead>, query: &Query) -> Option<Span>
    ensures { (known : List Known) → AreLeads leads.now known
        → result ≡ first_lead known (plain_query query.now) }
{
    match query {
        Query::Name(name) => lead_of(leads, name).leads.then_some(name.span),
        Query::Atom { .. } | Query::Eps { .. } => None,
        Query::Or { left, right, .. }
        | Query::Split { left, right, .. }
        | Query::Combine { left, right, .. }
        | Query::Compose { left, right, .. } => {
            first_lead(leads, left).or(first_lead(leads, right))
        }
        Query::Iter { operand, .. }
        | Query::Apply { operand, .. }
        | Query::Collect { body: operand, .. } => first_lead(leads, operand),
    }
}

// Whether a name outside of the right operands of compositions leads to the place.
fn leads_outside(leads: &HashMap<&[u8], Lead>, query: &Query) -> bool
    ensures { (known : List Known) → AreLeads leads.now known
        → result ≡ leads_outside known (plain_query query.now) }
{
    match query {
        Query::Name(name) => lead_of(leads, name).outside,
        Query::Atom { .. } | Query::Eps { .. } => false,
        Query::Or { left, right, .. }
        | Query::Split { left, right, .. }
        | Query::Combine { left, right, .. } => {
            leads_outside(leads, left) || leads_outside(leads, right)
        }
        Query::Iter { operand, .. }
        | Query::Apply { operand, .. }
        | Query::Compose { left: operand, .. }
        | Query::Collect { body: operand, .. } => leads_outside(leads, operand),
    }
}

// The first name that leads to the place and stands inside of these.
fn first_inside(inside: Inside, leads: &HashMap<&[u8], Lead>, query: &Query) -> Option<Span>
    ensures { (known : List Known) → AreLeads leads.now known
        → result ≡ first_inside inside known (plain_query query.now) }
{
    match query {
        Query::Name(name) => lead_of(leads, name).used,
        Query::Atom { .. } | Query::Eps { .. } => None,
        Query::Or { left, right, .. }
        | Query::Split { left, right, .. }
        | Query::Combine { left, right, .. } => {
            first_inside(inside, leads, left).or(first_inside(inside, leads, right))
        }
        Query::Compose { left, right, .. } => {
            first_inside(inside, leads, left).or(first_lead(leads, right))
        }
        Query::Iter { operand, .. } | Query::Apply { operand, .. } => {
            first_inside(inside, leads, operand)
        }
        Query::Collect { body, .. } => match inside {
            Inside::Compositions => first_inside(inside, leads, body),
            Inside::Collections => first_lead(leads, body),
        },
    }
}
