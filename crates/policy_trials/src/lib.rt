//! Tests of policies as text: their tokens, what their includes want; of patterns; and calls that memory is refused to.
#![tactic(auto)]

#[cfg(test)]
mod fixtures;
#[cfg(test)]
mod growth_trials;
#[cfg(test)]
mod include_trials;
#[cfg(test)]
mod index_trials;
#[cfg(test)]
mod pattern_trials;
#[cfg(test)]
mod rows;
#[cfg(test)]
mod shown;
#[cfg(test)]
mod token_trials;
