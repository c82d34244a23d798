//! Tests of the commands that need more than files: devices that fail, and memory that is refused.
#![tactic(auto)]

#[cfg(test)]
mod fault_trials;
#[cfg(test)]
mod growth_trials;
#[cfg(test)]
mod note_trials;
#[cfg(test)]
mod run_trials;
#[cfg(test)]
mod runs;
