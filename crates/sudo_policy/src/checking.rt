//! The check of a policy.
ghost use Rattle.std.specs.Prelude.{◌≡◌, IfOk, IfErr};
ghost use Rattle.sudo_policy.specs.Checking.{Passes, RefusesPolicy};
ghost use Rattle.sudo_policy.specs.Found.{has_error, is_error};

use crate::examination::examine;
use crate::{Checked, Class, Finding};
use std::alloc::Global;
use sudo_grammar::Policy;
use sudo_text::Seq;
use thiserror::Error;

/// The reason why a policy was not accepted, with the policy.
#[derive(Debug, Drop, Error)]
pub enum CheckFault {
    /// Some finding is an error. Contains all findings, as `findings` returns them.
    #[error("the policy has errors")]
    Findings(Policy, Seq<Finding>),
    /// Out of memory.
    #[error("out of memory")]
    Memory(Policy),
}

/// Checks the aliases of a policy as strict mode of visudo(8) does, and by the limits of this program.
///
/// Returns `Findings` exactly if a finding is an error, and `Memory` if allocation fails.
pub fn check(alloc: Global, policy: Policy) -> Result<Checked, CheckFault>
    ensures same { IfOk result (λ checked. checked ≡ policy) }
    ensures passes { IfOk result (λ checked. Passes policy) }
    ensures refuses { IfErr result (λ fault. RefusesPolicy policy fault) }
{
    match examine(alloc, &policy) {
        Ok(examined) => {
            if has_error(examined.findings.as_slice()) {
                Err(CheckFault::Findings(policy, Seq::from_vec(examined.findings)))
            } else {
                Ok(Checked::new(policy, examined.index))
            }
        }
        Err(_) => Err(CheckFault::Memory(policy)),
    }
}

impl Class {
    /// Whether findings of this class are errors.
    pub fn is_error(self) -> bool
        ensures { result ≡ is_error self }
    {
        match self {
            Class::Redefined | Class::Undefined | Class::Cycle | Class::TooDeep | Class::TooWide =>
                true,
            Class::Unused => false,
        }
    }
}

/// Whether one of the findings is an error.
pub fn has_error(findings: &[Finding]) -> bool
    ensures { result ≡ has_error findings.now }
{
    findings.iter().any(|finding| finding.class.is_error())
}
