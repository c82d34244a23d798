//! Links to folders.
ghost use Rattle.std.specs.Prelude.{◌≡◌, IfOk};
ghost use Rattle.review_cautions.specs.ListTests as spec;

use std::alloc::{AllocError, Global};
use sudo_text::Seq;

/// A folder that is a link, and the folder that it leads to, both without a slash at the end.
#[derive(Clone, Debug, Drop, PartialEq, Eq)]
pub struct Link {
    pub from: Seq<u8>,
    pub to: Seq<u8>,
}

// Copies the paths of a link.
fn linking(alloc: Global, from: &[u8], to: &[u8]) -> Result<Link, AllocError>
    ensures { IfOk result (λ link. link ≡ spec.linking from.now to.now) }
{
    Ok(Link {
        from: Seq::from_slice(alloc, from)?,
        to: Seq::from_slice(alloc, to)?,
    })
}

/// Returns the links that most machines have: `/bin`, `/sbin` and `/lib`, to folders in `/usr`. Returns `AllocError` only if
/// allocation fails.
pub fn usual_links(alloc: Global) -> Result<Vec<Link>, AllocError>
    ensures { IfOk result (λ links. links.items ≡ spec.usual_links) }
{
    let mut links = Vec::new(alloc);
    links.push(linking(alloc, b"/bin", b"/usr/bin")?)?;
    links.push(linking(alloc, b"/sbin", b"/usr/sbin")?)?;
    links.push(linking(alloc, b"/lib", b"/usr/lib")?)?;
    Ok(links)
}
