//! What holds of joined texts.
ghost use Rattle.std.specs.Prelude.{◌≡◌, ℕ, List, length};
ghost use Rattle.joined_texts.specs.Joining.{joined};

/// As many texts that are joined to the same bytes are the same texts.
pub fn joined_texts_can_be_told_apart()
    ensures { (texts others : List (List ℕ)) → length texts ≡ length others
        → joined texts ≡ joined others → texts ≡ others }
{}
