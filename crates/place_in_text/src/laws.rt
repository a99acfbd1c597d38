//! What holds of the part of a line that is shown.
ghost use Rattle.std.specs.Prelude.{ℕ, List};
ghost use Rattle.place_in_text.specs.Laws.{IsWindow};
ghost use Rattle.place_in_text.specs.Windows.{shown_before, shown_from};

/// The part that is shown is at most 100 bytes of one line, around the place. If the line is not
/// longer than that, it is shown whole.
pub fn windows_hold_their_places()
    ensures { (text : List ℕ) (place : ℕ)
        → IsWindow text place (shown_before text place) (shown_from text place) }
{}
