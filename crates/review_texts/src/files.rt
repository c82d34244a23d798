//! Files whose texts are masked.
ghost use Rattle.std.specs.Prelude.{◌≡◌, IfErr, IfOk};
ghost use Rattle.review_texts.specs.MaskedTexts.{IsMaskedFile, masked_holdings};

use crate::Readable;
use crate::texts::mask_text;
use run_base::{Files, FilesFault};
use std::alloc::Global;
use sudo_text::Seq;

/// Files of a policy, each with its masked text.
#[derive(Drop)]
pub struct Masked<F> {
    files: F,
    readable: Readable,
}

impl<F: Files> Masked<F> {
    /// Wraps files, so that each gives its masked text.
    pub fn new(files: F, readable: Readable) -> Masked<F>
        ensures { (result.files ≡ files) × (result.readable ≡ readable) }
    {
        Masked { files, readable }
    }
}

// Returns the masked text of a file that may be missing.
fn mask_file(
    alloc: Global,
    readable: &Readable,
    text: Option<Seq<u8>>,
) -> Result<Option<Seq<u8>>, FilesFault>
    ensures masked { IfOk result (λ masked. IsMaskedFile readable.now text masked) }
    ensures memory { IfErr result (λ fault. fault ≡ FilesFault.Memory) }
{
    match text {
        Some(text) => Ok(Some(mask_text(alloc, readable, text)?)),
        None => Ok(None),
    }
}

impl<F: Files> Files for Masked<F> {
    ghost held = { λ s. masked_holdings s.readable (F.held s.files) };

    fn file(&mut self, alloc: Global, path: &[u8]) -> Result<Option<Seq<u8>>, FilesFault> {
        let text = self.files.file(alloc, path)?;
        mask_file(alloc, &self.readable, text)
    }

    fn main_file(&mut self, alloc: Global, path: &[u8]) -> Result<Option<Seq<u8>>, FilesFault> {
        let text = self.files.main_file(alloc, path)?;
        mask_file(alloc, &self.readable, text)
    }

    fn folder(&mut self, alloc: Global, path: &[u8]) -> Result<Seq<Seq<u8>>, FilesFault> {
        self.files.folder(alloc, path)
    }
}
