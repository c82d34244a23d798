//! The data that the threads of an audit share.

use crate::Handoff;
use crate::wakes::Wakes;
use std::alloc::Global;
use sudo_match::Directory;
use sudo_policy::Checked;
use sudo_verdict::RuleIndex;

/// The data that the threads of an audit share: the policy with its index, the known users and
/// hosts, the queues, and the events for which the threads sleep.
#[derive(Clone, Copy)]
pub struct Shared<'e> {
    pub alloc: Global,
    pub policy: &'e Checked,
    pub index: &'e RuleIndex,
    pub directory: &'e Directory,
    pub handoff: &'e Handoff,
    pub wakes: &'e Wakes,
}
