//! Tokens have one reading at most.
ghost use Rattle.std.specs.Prelude.{◌≡◌, ◌⊎◌, ℕ, List};
ghost use Rattle.language_base.specs.declared.span.Span.{Span};
ghost use Rattle.query_tokens.specs.declared.token.Token.{Token};
ghost use Rattle.query_trees.specs.Terms.{AreTerms, IsNoList};
ghost use Rattle.query_trees.specs.Trees.{Trees};

/// Tokens are exactly one list of terms, or none. If none, there is exactly one place to name.
pub fn one_list_of_terms()
    ensures some { (tokens : List Token) (end : ℕ) → ((trees : Trees) × AreTerms trees tokens)
        ⊎ ((span : Span) × IsNoList tokens end span) }
    ensures one { (a b : Trees) (tokens : List Token)
        → AreTerms a tokens → AreTerms b tokens → b ≡ a }
    ensures never { (trees : Trees) (tokens : List Token) (end : ℕ) (span : Span)
        → AreTerms trees tokens → IsNoList tokens end span → ⊥ }
    ensures place { (tokens : List Token) (end : ℕ) (a b : Span)
        → IsNoList tokens end a → IsNoList tokens end b → b ≡ a }
{}
