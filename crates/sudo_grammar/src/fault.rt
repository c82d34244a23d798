//! The faults of a policy's text.

use std::alloc::{AllocError, AllocFailed};
use sudo_text::{Place, TextFault};
use thiserror::Error;

/// What the parser expected at the token of a syntax error.
#[derive(Clone, Copy, Debug, PartialEq, Eq, Error)]
pub enum Expected {
    /// A name, after the keyword of an alias line or after `:` in one.
    #[error("alias name")]
    AliasName,
    /// `=`, after the name of an alias in its definition or after the hosts of a section.
    #[error("=")]
    Equals,
    /// A user, a host, or a user or group to run as.
    #[error("member")]
    Member,
    /// A command.
    #[error("command")]
    Command,
    /// `)`, after an item in parentheses.
    #[error(")")]
    RightParen,
    /// A parameter of a `Defaults` line.
    #[error("parameter")]
    Parameter,
    /// A value, after `=`, `+=` or `-=` of a parameter.
    #[error("value")]
    Value,
    /// A path, in an include line.
    #[error("path")]
    Path,
    /// The end of the line, or a token that continues it.
    #[error("end of line")]
    EndOfLine,
}

/// A form of sudoers(5) that this reader recognizes and refuses, since its meaning depends on something outside the
/// file.
#[derive(Clone, Copy, Debug, PartialEq, Eq, Error)]
pub enum Unsupported {
    /// `+netgroup`
    #[error("netgroup")]
    Netgroup,
    /// `sha224:`, `sha256:`, `sha384:` or `sha512:` before a command.
    #[error("digest")]
    Digest,
    /// `^...$` as a command or as its arguments.
    #[error("regular expression")]
    RegularExpression,
    /// `%:group`
    #[error("non-Unix group")]
    NonUnixGroup,
    /// `ROLE=`, `CWD=` and the other options before a command.
    #[error("option")]
    CommandOption,
    /// The command `list`.
    #[error("list")]
    List,
    /// `%h` in the path of an include.
    #[error("%h")]
    HostEscape,
}

/// The reason why a token cannot continue a line.
#[derive(Clone, Copy, Debug, PartialEq, Eq)]
pub enum Refusal {
    /// Another token is expected.
    Syntax(Expected),
    /// A form that is recognized and refused.
    Unsupported(Unsupported),
    /// A word in place of a command.
    NotCommand,
    /// A malformed number, address or network.
    BadNumber,
    /// The name of a definition over the limit.
    TooMany,
}

/// A fault of the lines of a policy.
///
/// The first faulty line decides; in a line a fault of the text comes first, and then the leftmost fault of the
/// grammar. `place` is where the logical line begins, and `col` is 1 plus the offset of the fault in the joined text.
#[derive(Clone, Copy, Debug, PartialEq, Eq, Error)]
pub enum ParseFault {
    /// A token that cannot continue the line, or a line that ends too early.
    #[error("{place}:{col}: syntax error, expected {expected}")]
    Syntax {
        place: Place,
        col: u32,
        expected: Expected,
    },
    /// A form that is recognized and refused.
    #[error("{place}: unsupported {what}")]
    Unsupported {
        place: Place,
        what: Unsupported,
    },
    /// A word in place of a command.
    #[error("{place}:{col}: not a command")]
    NotCommand {
        place: Place,
        col: u32,
    },
    /// A malformed number, address or network.
    #[error("{place}:{col}: bad number")]
    BadNumber {
        place: Place,
        col: u32,
    },
    /// More than 4,096 definitions of aliases of one kind.
    #[error("{place}: too many aliases")]
    TooMany {
        place: Place,
    },
    /// A line whose text is faulty.
    #[error(transparent)]
    Text(TextFault),
    /// Out of memory.
    #[error("out of memory")]
    Memory,
}

impl From<AllocError> for ParseFault {
    ghost use Rattle.std.specs.Prelude.{◌≡◌};
    ghost use Rattle.sudo_grammar.specs.declared.fault.ParseFault.TheVariants.{Memory};

    ghost from_gives = { λ _ e. e ≡ Memory };

    fn from(_: AllocError) -> ParseFault {
        ParseFault::Memory
    }
}

impl<T: Drop> From<AllocFailed<T>> for ParseFault {
    ghost use Rattle.std.specs.Prelude.{◌≡◌};
    ghost use Rattle.sudo_grammar.specs.declared.fault.ParseFault.TheVariants.{Memory};

    ghost from_gives = { λ _ e. e ≡ Memory };

    fn from(_: AllocFailed<T>) -> ParseFault {
        ParseFault::Memory
    }
}
