//! The entries of one file.
ghost use Rattle.std.specs.Prelude.{◌≡◌, ◌≢◌, Ok, Err, IfOk, IfErr};
ghost use Rattle.sudo_load.specs.Files.{HasContent};

use std::alloc::Global;
use sudo_grammar::{Entry, ParseFault};
use sudo_parser::parse_lines;
use sudo_text::{Seq, TextFault, lines};

/// Reads the entries of the file with the given number.
pub(crate) fn read(alloc: Global, file: u32, text: &[u8]) -> Result<Seq<Entry>, ParseFault>
    ensures entries { IfOk result (λ entries. HasContent file text.now (Ok entries)) }
    ensures fault { IfErr result (λ fault. fault ≢ ParseFault.Memory
        → HasContent file text.now (Err fault)) }
{
    match lines(alloc, file, text) {
        Ok(lines) => match parse_lines(alloc, lines) {
            Ok(entries) => Ok(Seq::from_vec(entries)),
            Err(fault) => Err(fault),
        },
        Err(TextFault::Memory) => Err(ParseFault::Memory),
        Err(fault) => Err(ParseFault::Text(fault)),
    }
}
