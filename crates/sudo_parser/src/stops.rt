//! The stop of the parser at a token that cannot continue a line.
ghost use Rattle.std.specs.Prelude.{◌≡◌};

use std::alloc::AllocError;
use sudo_grammar::{Expected, Refusal};

/// The reason why a line is no entry: the refusal, and the number of tokens from the refused one on.
#[derive(Clone, Copy, Debug)]
pub(crate) enum ParserStop {
    At { refusal: Refusal, left: usize },
    Memory,
}

impl From<AllocError> for ParserStop {
    ghost use Rattle.sudo_parser.specs.declared.stops.ParserStop.TheVariants.{Memory};

    ghost from_gives = { λ _ e. e ≡ Memory };

    fn from(_: AllocError) -> ParserStop {
        ParserStop::Memory
    }
}

/// Returns the stop at a token in place of the expected one, with `left` tokens from it on.
pub(crate) fn wants(expected: Expected, left: usize) -> ParserStop
    ensures { result ≡ ParserStop.At (Refusal.Syntax expected) left }
{
    ParserStop::At {
        refusal: Refusal::Syntax(expected),
        left,
    }
}
