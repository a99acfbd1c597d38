//! What holds of every text.
ghost use Rattle.std.specs.Prelude.{◌≡◌, ◌<◌, ◌≤◌, ℕ, List, All, length};
ghost use Rattle.language_base.specs.Limits.{max_text};
ghost use Rattle.query_forms.specs.Terms.{Terms};
ghost use Rattle.query_parser.specs.Printing.{file_text, unplaced};
ghost use Rattle.query_parser.specs.Reading.{IsFileOf};
ghost use Rattle.template_expansion.specs.declared.stop.ExpandStop.{ExpandStop};
ghost use Rattle.template_expansion.specs.Meaning.{IsExpansionOf, IsRefused, StandsFor};

use query_templates::a_file_without_definitions_is_plain;

/// A file without templates stands for its own terms, is written as the canonical text of these,
/// and is not refused.
pub fn a_plain_file_stands_for_itself()
    ensures stands { (text : List ℕ) (terms : Terms) →
        IsFileOf text terms → StandsFor text terms }
    ensures written { (text bytes : List ℕ) (terms : Terms) →
        IsFileOf text terms → IsExpansionOf text bytes → bytes ≡ file_text terms }
    ensures not_refused { (text : List ℕ) (terms : Terms) (stop : ExpandStop) →
        IsFileOf text terms → IsRefused text stop → ⊥ }
{
    a_file_without_definitions_is_plain();
}

/// A text stands for one list of terms, or has one first refusal.
pub fn one_meaning()
    ensures terms { (text : List ℕ) (terms others : Terms) →
        StandsFor text terms → StandsFor text others → others ≡ terms }
    ensures never_both { (text : List ℕ) (terms : Terms) (stop : ExpandStop) →
        StandsFor text terms → IsRefused text stop → ⊥ }
    ensures refusal { (text : List ℕ) (first other : ExpandStop) →
        IsRefused text first → IsRefused text other → other ≡ first }
{}

/// The plain text that is made reads back to the terms that the text stands for, unless it is
/// longer than a text may be.
pub fn an_expansion_reads_back()
    ensures { (text bytes : List ℕ) → All (λ byte. byte < 256) text
        → (made : IsExpansionOf text bytes) → length bytes ≤ max_text → (again : Terms)
        × IsFileOf bytes again × (unplaced again ≡ unplaced made.terms) }
{}
