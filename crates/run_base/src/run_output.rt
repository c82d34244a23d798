//! The output of a run.

/// The text that a run prints, and the status with which it then ends.
#[derive(Drop)]
pub struct RunOutput {
    pub text: Vec<u8>,
    pub status: u8,
}
