//! Parameters whose places are of two kinds.
ghost use Rattle.std.specs.Prelude.{◌≡◌, [], ◌∷◌, ◌++◌, IfOk, map};
ghost use Rattle.std.specs.Bool.{OnTrue};
ghost use Rattle.query_templates.specs.declared.standing.Standing.{Standing};
ghost use Rattle.query_templates.specs.Plain.{plain_standings, plain_template};
ghost use Rattle.query_templates.specs.Standings.{agreed, first_torn, is_torn, torn, torn_from};

use crate::kinds::go_together;
use crate::refusal::refusal;
use crate::standing::{Standing, standings};
use crate::template::Template;
use crate::{TemplateCause, TemplateRefusal};
use std::alloc::{AllocError, Global};

/// The first parameter that is torn, wherever the body is.
#[tactic(auto, unfolding(crate::specs::Standings::torn))]
pub(crate) fn torn(
    alloc: Global,
    text: &[u8],
    template: &Template,
) -> Result<Option<TemplateRefusal>, AllocError>
    ensures { IfOk result (λ refusal. refusal ≡ torn text.now (plain_template template.now)) }
{
    let standings = standings(alloc, text, template)?;
    torn_in_all(alloc, &standings)
}

fn torn_in_all(
    alloc: Global,
    standings: &[Vec<Standing>],
) -> Result<Option<TemplateRefusal>, AllocError>
    ensures { IfOk result (λ refusal. refusal
        ≡ agreed (map (first_torn []) (plain_standings standings.now))) }
{
    let [first, others @ ..] = standings else {
        return Ok(None);
    };
    let refusal = first_torn(alloc, first)?;
    'others: for other in others {
        if first_torn(alloc, other)?.is_none() {
            return Ok(None);
        }
    }
    Ok(refusal)
}

fn first_torn(alloc: Global, standings: &[Standing]) -> Result<Option<TemplateRefusal>, AllocError>
    ensures { IfOk result (λ refusal. refusal ≡ first_torn [] standings.now) }
{
    // Of each parameter the first at each kind of place, which is as good as all.
    let mut firsts = Vec::new(alloc);
    'standings: for &one in standings {
        if let Some(refusal) = torn_from(&firsts, one) {
            return Ok(Some(refusal));
        }
        if !is_known(&firsts, one) {
            firsts.push(one)?;
        }
    }
    Ok(None)
}

fn torn_from(known: &[Standing], one: Standing) -> Option<TemplateRefusal>
    ensures { result ≡ torn_from known.now one }
{
    'known: for &other in known {
        if is_torn(other, one) {
            return refusal(TemplateCause::TwoKinds(other.word), one.word);
        }
    }
    None
}

// Whether another one makes no difference, since one of its parameter stands at such a place. That
// it says so whenever it could is not stated: it would only spare more comparisons.
fn is_known(known: &[Standing], one: Standing) -> bool
    ensures { OnTrue result ((other : Standing) →
        torn_from (known.now ++ one ∷ []) other ≡ torn_from known.now other) }
{
    'known: for &other in known {
        if is_alike(other, one) {
            return true;
        }
    }
    false
}

fn is_alike(one: Standing, other: Standing) -> bool
    ensures { OnTrue result ((one.parameter ≡ other.parameter) × (one.at ≡ other.at)) }
{
    one.parameter == other.parameter && one.at == other.at
}

fn is_torn(one: Standing, other: Standing) -> bool
    ensures { result ≡ is_torn one other }
{
    one.parameter == other.parameter && !go_together(one.at, other.at)
}
