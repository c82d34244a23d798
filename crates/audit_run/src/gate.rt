//! Hooks around each judgement, for tests.

/// Hooks that are called for each request that a worker judges. `sender` is the sender's index in
/// the roster, from 0, and `number` is the number of the request.
pub trait Gate {
    /// Called after the request was taken, before it is judged.
    fn before(&self, sender: u32, number: u32);

    /// Called after the answer was put for the caller.
    fn after(&self, sender: u32, number: u32);
}

/// The gate that does nothing.
#[derive(Clone, Copy)]
pub struct Open;

impl Gate for Open {
    fn before(&self, _sender: u32, _number: u32) {}

    fn after(&self, _sender: u32, _number: u32) {}
}
