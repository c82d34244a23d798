//! Whether a `Defaults` line decides for sudo whose password is asked.
ghost use Rattle.std.specs.Prelude.{◌≡◌, IfOk};
ghost use Rattle.review_cautions.specs.PasswordDefaults as spec;

use crate::bytes::is_text;
use crate::caution::Caution;
use crate::defaults::push_defaults;
use std::alloc::{AllocError, Global};
use sudo_grammar::Policy;

fn asks_password(name: &[u8]) -> bool
    ensures { result ≡ spec.asks_password name.now }
{
    is_text(name, b"authenticate")
        || is_text(name, b"targetpw")
        || is_text(name, b"rootpw")
        || is_text(name, b"runaspw")
        || is_text(name, b"exempt_group")
}

/// Whether a `Defaults` line of the policy decides for sudo whether a password is asked, or whose: it turns `authenticate` off,
/// or turns `targetpw`, `rootpw`, `runaspw` or `exempt_group` on. Returns `AllocError` if allocation failed.
pub fn decides_passwords(alloc: Global, policy: &Policy) -> Result<bool, AllocError>
    ensures { IfOk result (λ decides. decides ≡ spec.decides_passwords policy.now) }
{
    let mut found: Vec<Caution> = Vec::new(alloc);
    push_defaults(alloc, policy.entries.as_slice(), &mut found)?;
    Ok(
        found
            .iter()
            .any(|caution| asks_password(caution.subject.as_slice())),
    )
}
