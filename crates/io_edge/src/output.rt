//! The writers to which a sink writes.
ghost use Rattle.std.specs.Prelude.{◌≡◌, None, refl};

use std::io::{Printer, Write};

/// A writer whose contents are either known at all times or never.
pub trait Output: Write {
    ghost reports_alike: { (one other : Self) → Self.contents one ≡ None
        → Self.contents other ≡ None };
}

/// The contents of standard output are never known.
impl<P: Print> Output for Printer<'_, P> {
    ghost reports_alike = { λ one other none. refl };
}
