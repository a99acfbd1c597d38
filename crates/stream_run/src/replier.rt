//! What replies to the lines of a stream.
ghost use Rattle.std.specs.Prelude.{◌≡◌, ◌<◌, ◌≤◌, ◌+◌, ◌^◌, ℕ, List, [], IfOk, OnOk};
ghost use Rattle.io_edge.specs.Lines.{Shown, long, text};
ghost use Rattle.stream_run.specs.Replying.{Replies};

use std::alloc::{AllocError, Global};

/// It takes the lines of a stream one by one, and says what is written for each.
pub trait Replier {
    /// From where the first stands, the second stands after these lines.
    ghost stands: { Self → List Shown → Self → Type 0 };

    /// What a text is to lines, if it is written for them from there on.
    ghost says: { Self → List Shown → List ℕ → Type 0 };

    /// It can take a line.
    ghost ready: { Self → Type 0 };

    /// How many items it has taken.
    ghost position: { Self → ℕ };

    /// What no line changes is the same in both.
    ghost same: { Self → Self → Type 0 };

    /// Takes a line without its line end, and puts what is written for it into the buffer in place
    /// of what was there. Out of memory for the text, the line may have been taken already.
    fn reply<'b>(
        &mut self,
        alloc: Global,
        line: &[u8],
        buffer: &'b mut Vec<u8>,
    ) -> Result<&'b [u8], AllocError>
        requires ready { ready self.old }
        requires room { position self.old < 2 ^ 62 + 2 ^ 63 }
        ensures replies { IfOk result (λ reply.
            Replies stands says (text line.now) reply.now self.old self.new) }
        ensures ready { OnOk result (ready self.new) }
        ensures position { OnOk result (position self.new ≤ position self.old + 1) }
        ensures same { same self.old self.new };

    /// The same of a line that is too long.
    fn reply_to_long<'b>(&mut self, buffer: &'b mut Vec<u8>) -> Result<&'b [u8], AllocError>
        requires ready { ready self.old }
        ensures replies { IfOk result (λ reply.
            Replies stands says long reply.now self.old self.new) }
        ensures ready { OnOk result (ready self.new) }
        ensures position { OnOk result (position self.new ≤ position self.old + 1) }
        ensures same { same self.old self.new };

    /// It stands where it begins.
    ghost begins: { (first : Self) → stands first [] first };

    /// For no line nothing is written.
    ghost says_nothing: { (first : Self) → says first [] [] };

    /// What no line changes is the same from one line to the next.
    ghost same_before: { (first : Self) → same first first };

    ghost same_after: { (first now next : Self) → same first now → same now next
        → same first next };
}
