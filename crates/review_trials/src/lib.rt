//! Tests of what the reviewer reads and explains: files below a folder, over memory, and hints at faults of a policy, both with little
//! memory too; texts before and behind their masks.
#![tactic(auto)]

#[cfg(test)]
mod growth_trials;
#[cfg(test)]
mod hint_trials;
#[cfg(test)]
mod mask_trials;
#[cfg(test)]
mod rooted_trials;
