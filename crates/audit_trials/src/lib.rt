//! Tests of audits that files alone do not show: threads, readers and writers, refused memory, and
//! the collector in every order of arrival.
#![tactic(auto)]

#[cfg(test)]
mod device_trials;
#[cfg(test)]
mod fixtures;
#[cfg(test)]
mod growth_trials;
#[cfg(test)]
mod order_trials;
#[cfg(test)]
mod queue_trials;
#[cfg(test)]
mod reader_trials;
#[cfg(test)]
mod refusal_trials;
#[cfg(test)]
mod report_trials;
#[cfg(test)]
mod rows;
#[cfg(test)]
mod standing_trials;
#[cfg(test)]
mod thread_trials;
#[cfg(test)]
mod verdict_trials;
#[cfg(test)]
mod wake_trials;
