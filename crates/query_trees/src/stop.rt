//! Why trees cannot be read.
use language_base::Span;
use std::alloc::AllocError;

#[derive(Debug, Drop)]
pub enum TreeStop {
    /// The tokens are not a list of terms.
    NoList(Span),
    /// This term is nested too deeply.
    Deep(Span),
    Memory,
}

impl From<AllocError> for TreeStop {
    ghost use Rattle.std.specs.Prelude.{◌≡◌};
    ghost use Rattle.query_trees.specs.declared.stop.TreeStop.TheVariants.{Memory};

    ghost from_gives = { λ _ stop. stop ≡ Memory };

    fn from(_error: AllocError) -> TreeStop {
        TreeStop::Memory
    }
}
