//! The reader of a stream, and what it may be blamed for.
ghost use Rattle.std.specs.Prelude.{◌≡◌, ⊤, [], length, IfOk, IfSome, OnErr};
ghost use Rattle.std.specs.Io.{StartsWith};
ghost use Rattle.std.specs.Io.BufRead.{FillKeeps, Rests};
ghost use types.Logic.{sem};

use std::io::{self, BufRead};

/// What a stream is read from: each buffered reader. Only a call of `fill` that returns an error shows that a reader
/// failed, so no other code can blame it.
pub trait StreamReader: BufRead {
    // a call on it failed, and left it so
    ghost fails: { Self → Self → Type 0 };

    /// The next bytes, as `fill_buf` shows them.
    fn fill(&mut self) -> io::Result<&[u8]>
        ensures front { IfSome (Self.remaining self.old)
            (λ xs. IfOk result (λ s. StartsWith xs s.now)) }
        ensures end { IfSome (Self.remaining self.old)
            (λ xs. IfOk result (λ s. length s.now ≡ 0 → xs ≡ [])) }
        ensures* after_borrow { sem 𝓛 (Rests Self.row self.entry (λ new.
            FillKeeps (Self.remaining self.old) (Self.remaining new) (Self.consumable_len new) result
            × OnErr result (fails self.old new))) };
}

impl<R: BufRead> StreamReader for R {
    ghost fails = { λ _ _. ⊤ };

    fn fill(&mut self) -> io::Result<&[u8]> {
        self.fill_buf()
    }
}
