//! A text has tokens or a fault, and in only one way.
ghost use Rattle.std.specs.Prelude.{◌≡◌, ◌⊎◌, ℕ, List};
ghost use Rattle.query_tokens.specs.declared.token.Token.{Token};
ghost use Rattle.query_tokens.specs.Raw.{IsString};
ghost use Rattle.query_tokens.specs.Tokens.{AreTokens, FaultAfter};

/// A text has at most one list of tokens.
pub fn one_list_of_tokens()
    ensures { (at : ℕ) (text : List ℕ) (tokens others : List Token) → AreTokens at text tokens
        → AreTokens at text others → others ≡ tokens }
{}

/// A text has tokens, or a place after some of them where no token begins, but not both.
pub fn tokens_or_fault()
    ensures some { (at : ℕ) (text : List ℕ) → ((tokens : List Token) × AreTokens at text tokens)
        ⊎ ((before : List Token) × (place : ℕ) × FaultAfter at text before place) }
    ensures never_both { (at place : ℕ) (text : List ℕ) (tokens before : List Token) →
        AreTokens at text tokens → FaultAfter at text before place → ⊥ }
{}

/// A text has at most one place of fault.
pub fn one_fault()
    ensures { (at place other : ℕ) (text : List ℕ) (before others : List Token)
        → FaultAfter at text before place → FaultAfter at text others other → other ≡ place }
{}

/// A string stands for at most one list of bytes.
pub fn one_text()
    ensures { (raw bytes others : List ℕ) → IsString raw bytes → IsString raw others
        → others ≡ bytes }
{}
