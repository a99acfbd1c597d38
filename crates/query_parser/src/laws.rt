//! A text is read in one way.
ghost use Rattle.std.specs.Prelude.{◌≡◌, ◌⊎◌, ℕ, List};
ghost use Rattle.language_base.specs.declared.refusal.Refusal.{Refusal};
ghost use Rattle.query_forms.specs.Terms.{Terms};
ghost use Rattle.query_parser.specs.Reading.{IsFileOf, IsRefused};

/// A text is a file of one list of terms, or has one first refusal.
pub fn one_reading()
    ensures some { (text : List ℕ) → ((terms : Terms) × IsFileOf text terms)
        ⊎ ((why : Refusal) × IsRefused text why) }
    ensures file { (text : List ℕ) (terms others : Terms) →
        IsFileOf text terms → IsFileOf text others → others ≡ terms }
    ensures never_both { (text : List ℕ) (terms : Terms) (refusal : Refusal) →
        IsFileOf text terms → IsRefused text refusal → ⊥ }
    ensures refusal { (text : List ℕ) (first other : Refusal) →
        IsRefused text first → IsRefused text other → other ≡ first }
{}
