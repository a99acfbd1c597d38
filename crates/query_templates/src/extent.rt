//! How much space terms take.
ghost use Rattle.std.specs.Prelude.{◌≡◌};
ghost use Rattle.query_templates.specs.declared.extent.Extent.{Extent};
ghost use Rattle.query_templates.specs.Extents.{beside, call_extent, nothing, token_extent};
ghost use Rattle.query_templates.specs.Measured.{capped};

use query_tokens::Token;

/// Bytes and levels, or 2^32 - 1 where there are more.
#[derive(Clone, Copy)]
pub(crate) struct Extent {
    pub(crate) bytes: u32,
    pub(crate) levels: u32,
}

impl Extent {
    #[tactic(auto, unfolding(crate::specs::Measured::capped))]
    pub(crate) fn nothing() -> Extent
        ensures { result ≡ capped nothing }
    {
        Extent {
            bytes: 0,
            levels: 0,
        }
    }

    #[tactic(auto, unfolding(crate::specs::Measured::capped))]
    pub(crate) fn of_token(token: Token) -> Extent
        ensures { result ≡ capped (token_extent token) }
    {
        let spelled = token.span.to.saturating_sub(token.span.from);
        Extent {
            bytes: spelled.saturating_add(2),
            levels: 1,
        }
    }

    pub(crate) fn beside(self, other: Extent) -> Extent
        ensures { (one two : Extent) → self ≡ capped one → other ≡ capped two
            → result ≡ capped (beside one two) }
    {
        Extent {
            bytes: self.bytes.saturating_add(other.bytes),
            levels: self.levels.max(other.levels),
        }
    }

    /// Of a call whose arguments have this.
    pub(crate) fn in_call(self, head: Token) -> Extent
        ensures { (inner : Extent) → self ≡ capped inner
            → result ≡ capped (call_extent head inner) }
    {
        let around = Extent::of_token(head);
        Extent {
            bytes: around.bytes.saturating_add(self.bytes),
            levels: self.levels.saturating_add(1),
        }
    }
}
