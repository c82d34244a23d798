//! What ends a run that does not print its whole text.
ghost use Rattle.std.specs.Prelude.{◌≡◌, ℕ, List, IfOk};

use std::alloc::{AllocError, Global};

/// A reason why a run did not print its whole text.
pub trait Fails {
    // The exit status.
    ghost status: { Self → ℕ };

    // The text that the program of this name prints.
    ghost printed: { List ℕ → Self → List ℕ };

    // That text where the program says why a path cannot be read.
    ghost explained: { List ℕ → Self → List ℕ };

    /// Returns the exit status.
    fn status(&self) -> u8
        ensures { result ≡ status self.now };

    /// Returns the text that the program of this name prints. Returns `AllocError` only if allocation failed.
    fn printed(self, alloc: Global, program: &[u8]) -> Result<Vec<u8>, AllocError>
        ensures { IfOk result (λ text. text.items ≡ printed program.now self) };

    /// Returns the text that the program of this name prints, with the reason why a path cannot be read. Returns `AllocError`
    /// only if allocation failed.
    fn explained(self, alloc: Global, program: &[u8]) -> Result<Vec<u8>, AllocError>
        ensures { IfOk result (λ text. text.items ≡ explained program.now self) };
}
