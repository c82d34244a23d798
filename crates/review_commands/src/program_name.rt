//! The name of the program.

/// The name of the program, as its lines on the error output begin.
pub const PROGRAM: &[u8] = b"sudo_review";
