//! What trees say, they say in one way.
ghost use Rattle.std.specs.Prelude.{◌≡◌, ℕ, List};
ghost use Rattle.query_tokens.specs.declared.token.Token.{Token};
ghost use Rattle.query_trees.specs.Terms.{AreTerms};
ghost use Rattle.query_trees.specs.Trees.{Trees};
ghost use Rattle.query_forms.specs.Terms.{AreOf, Say, Terms};

/// Trees that the tokens of a text are say one list of terms.
pub fn one_list_of_terms()
    ensures some { (text : List ℕ) (tokens : List Token) (trees : Trees) → AreTerms trees tokens →
        AreOf text trees → (terms : Terms) × Say text trees terms }
    ensures only { (text : List ℕ) (trees : Trees) (terms others : Terms) → Say text trees terms →
        Say text trees others → others ≡ terms }
{}
